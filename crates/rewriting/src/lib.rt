// Rewriting: a record read and written again.
#![tactic(auto)]

ghost use Rattle.route.specs.Rewriting.{Rewrites};

use refusal::Refusal;

// Reads a record whole and writes it again, at an index of the output, from the rows handed out: the code of demand 3 (d).
pub fn rewrite(
    grammar: &[u32],
    record: &[u8],
    rows: &mut [u64],
    out: &mut [u8],
    index: usize,
) -> Result<u64, Refusal>
    ensures { Rewrites grammar.now «record».now rows.old out.old index result rows.new out.new }
{
    packed::room(out.len(), index, record.len(), 1)?;
    let read = reading::demarshall(grammar, record, rows)?;
    writing::marshall_val(grammar, rows, read.rows, record, out, index)
}
