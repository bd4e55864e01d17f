// A first use of the library: case A of the rules is read, its rows are printed and the bytes of its array, the record is written
// again at byte 1 of an output, and without its last byte it is refused.
#![tactic(auto)]

use reading::Parsed;
use refusal::Refusal;
use std::io;

fn print_row(rt: &HostRuntime, rows: &[u64], row: usize) -> io::Result<()> {
    let kind = tables::kind_at(rows, row);
    let span = tables::span_at(rows, row);
    let word2 = tables::word2_at(rows, row);
    let word3 = tables::word3_at(rows, row);
    let size = tables::size_at(rows, row);
    println!(rt; "{kind} {span} {word2} {word3} {size}")
}

// The rows of the value, and the bytes of the array that row 2 stands for.
fn print_value(
    rt: &HostRuntime,
    parsed: Result<Parsed, Refusal>,
    rows: &[u64],
    record: &[u8],
) -> io::Result<()> {
    match parsed {
        Err(refusal) => println!(rt; "{refusal}"),
        Ok(value) => {
            for row in 0..value.rows {
                print_row(rt, rows, row)?;
            }
            rt.write_all(rows::array_bytes(rows, value.rows, record, 2))?;
            rt.write_all(b"\n")
        }
    }
}

// How many bytes were written, and the end of the output.
fn print_written(rt: &HostRuntime, size: Result<u64, Refusal>, end: &[u8]) -> io::Result<()> {
    match size {
        Err(refusal) => println!(rt; "{refusal}"),
        Ok(n) => {
            print!(rt; "{n} bytes, at the end ")?;
            rt.write_all(end)?;
            rt.write_all(b"\n")
        }
    }
}

fn main(rt: HostRuntime) -> io::Result<()> {
    let grammar = [3u32, 4, 0, 2, 1, 0, 0, 5, 0, 0, 2, 1, 2]; // tuple(u32, bytes)
    let record = [7u8, 0, 0, 0, 2, 0, 0, 0, 0, 0, 0, 0, b'A', b'B'];
    let mut rows = [0u64; 15];
    let parsed = reading::demarshall(&grammar, &record, &mut rows);
    print_value(&rt, parsed, &rows, &record)?;
    let mut out = [b'.'; 16];
    let written = rewriting::rewrite(&grammar, &record, &mut rows, &mut out, 1);
    print_written(&rt, written, &out[13..])?;
    let cut = reading::demarshall(&grammar, &record[..13], &mut rows);
    print_value(&rt, cut, &rows, &record)
}
