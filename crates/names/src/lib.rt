// The new numbers of a drawing, and its table (specification, 4.13).
#![tactic(auto)]

ghost use Rattle.std.specs.Prelude.{◌≡◌, ℕ, ◌+◌, ◌*◌, ◌<◌, ◌≤◌, length, get_or};
ghost use Rattle.circuit.specs.Table.{variables, table_length};
ghost use Rattle.three.specs.Lists.{tabulate, over};
ghost use Rattle.drawn.specs.Drawing.{Drawing, name, table as table_of, renumbered as renumbered_of};
ghost use Rattle.defined.specs.Places.{held, Spoken, DrawingJudged};
ghost use Rattle.drawn.proofs.Proper.{Proper};
ghost use Rattle.names.specs.Naming.{line_by, Followed, Of, Numbers, renamed_by};
ghost use Rattle.names.specs.Tabling.{table_by, Tabled};

use circuit::Counts;

// The line that gets number r + 1: inputs and latches in file order, then the gates in theirs.
fn line_at(owns: &[u32], order: &[u16; 4096], leaves: usize, gates: usize, r: usize) -> usize
    requires { Followed owns.now order.now leaves gates × (r < leaves + gates) }
    ensures { result ≡ line_by order.now leaves r }
{
    if r < leaves {
        return r;
    }
    leaves + order[r - leaves] as usize
}

// Old variable to new: an entry for each variable, 0 for the constant and for one without a line.
pub fn name_lines(
    owns: &[u32],
    order: &[u16; 4096],
    leaves: usize,
    gates: usize,
    names: &mut [u16; 4096],
)
    requires { Followed owns.now order.now leaves gates × (length names.old ≡ 4096) × ((v : ℕ) → get_or names.old v 0 ≡ 0) }
    ensures { (length names.new ≡ 4096) × ((d : Drawing) → Proper d → Of d owns.now order.now leaves gates → (v : ℕ) → get_or names.new v 0 ≡ name d v) }
{
    let lines = leaves + gates;
    for r in 0..lines {
        let k = line_at(owns, order, leaves, gates, r);
        let v = owns[k] as usize / 2;
        names[v] = (r + 1) as u16;
    }
}

// A literal in the new numbers.
fn renamed(names: &[u16; 4096], x: u16) -> u16
    requires { (x < 8192) × Numbers names.now }
    ensures { result ≡ renamed_by names.now x }
{
    2 * names[(x / 2) as usize] + x % 2
}

// Word k of the table: latches and lines of one literal as they stand, gates in their order, literals in the new numbers.
fn word_at(counts: Counts, words: &[u16], names: &[u16; 4096], order: &[u16; 4096], k: usize) -> u16
    requires { Tabled counts words.now names.now order.now × (k < table_length counts) }
    ensures { result ≡ get_or (table_by counts words.now names.now order.now) k 0 }
{
    let gates = counts.gates_at();
    if k < counts.literals_at() {
        if k % 2 == 1 {
            return words[k];
        }
        return renamed(names, words[k]);
    }
    if k < gates {
        return renamed(names, words[k]);
    }
    let j = k - gates;
    let i = order[j / 2] as usize;
    renamed(names, words[gates + 2 * i + j % 2])
}

// The table, into the front of what is lent.
pub fn fill_table(
    counts: Counts,
    words: &[u16],
    names: &[u16; 4096],
    order: &[u16; 4096],
    table: &mut [u16],
)
    requires { Tabled counts words.now names.now order.now × (table_length counts ≤ length table.old) }
    ensures { table.new ≡ over (table_by counts words.now names.now order.now) table.old }
{
    for (k, word) in table[..counts.table_length()].iter_mut().enumerate() {
        *word = word_at(counts, words, names, order, k);
    }
}

// The numbers of the first variables, into the front of what is lent.
fn store_names(names: &[u16; 4096], count: usize, renumbered: &mut [u16])
    requires { (length names.now ≡ 4096) × (count ≤ 4096) × (count ≤ length renumbered.old) }
    ensures { renumbered.new ≡ over (tabulate count (λ v. get_or names.now v 0)) renumbered.old }
{
    renumbered[..count].copy_from_slice(&names[..count]);
}

// Table and list of a drawing that 20, 21 and 22 do not refuse.
pub fn fill_drawing(
    counts: Counts,
    most: usize,
    owns: &[u32],
    words: &[u16],
    order: &[u16; 4096],
    table: &mut [u16],
    renumbered: &mut [u16],
)
    requires { DrawingJudged (held most counts owns.now words.now) 0 order.now × Spoken counts words.now × (variables counts ≤ length owns.now) × (most ≤ 4095) × (table_length counts ≤ length table.old) × (most + 1 ≤ length renumbered.old) }
    ensures { (table.new ≡ over (table_of (held most counts owns.now words.now)) table.old) × (renumbered.new ≡ over (renumbered_of (held most counts owns.now words.now)) renumbered.old) }
{
    let leaves = counts.inputs + counts.latches;
    let mut names = [0u16; 4096];
    name_lines(owns, order, leaves, counts.gates, &mut names);
    fill_table(counts, words, &names, order, table);
    store_names(&names, most + 1, renumbered);
}
