// The public merge of two records (specification, 2.9).
#![tactic(auto)]

ghost use Rattle.std.specs.Prelude.{◌≡◌, ◌≤◌, length};
ghost use Rattle.three.specs.Lists.{over};
ghost use Rattle.three.specs.Cube.{merged as merged_cubes};
ghost use Rattle.three.specs.Record.{bytes_for, pack, unpack};
ghost use Rattle.three.specs.RecordInCode.{IsRecord};
ghost use Rattle.circuit.specs.Refusal.{refusal};
ghost use Rattle.circuit.specs.Answer.{answered};
ghost use Rattle.merging.specs.Call.{merge_tests, Merging};
ghost use Rattle.merging.specs.Promise.{Narrowest};

use circuit::Refusal;

// As many fields as a record has at most: 512 latches.
const MOST_FIELDS: usize = 512;

// The refusals of a merge, in order, for a result of this length.
fn merge_refusal(fields: usize, a: &[u8], b: &[u8], merged: usize) -> Result<(), Refusal>
    ensures { answered result ≡ refusal (merge_tests fields a.now b.now merged) }
{
    if fields > MOST_FIELDS {
        return Err(Refusal::OverCeiling);
    }
    let len = three::record_length(fields);
    if a.len() < len {
        return Err(Refusal::TooShort);
    }
    if b.len() < len {
        return Err(Refusal::TooShort);
    }
    if !three::sound(a, fields) {
        return Err(Refusal::Unsound);
    }
    if !three::sound(b, fields) {
        return Err(Refusal::Unsound);
    }
    if merged < len {
        return Err(Refusal::TooShort);
    }
    Ok(())
}

// What is known alike in both, into the front of `merged`: on the two bits of a field that is AND.
fn store_common(fields: usize, a: &[u8], b: &[u8], merged: &mut [u8])
    requires { IsRecord fields a.now × IsRecord fields b.now × (bytes_for fields ≤ length merged.old) }
    ensures { merged.new ≡ over (pack (merged_cubes (unpack fields a.now) (unpack fields b.now))) merged.old }
{
    for k in 0..three::record_length(fields) {
        merged[k] = a[k] & b[k];
    }
}

// The public merge. Nothing is relied on: any numbers and buffers may be handed in.
pub fn merge(fields: usize, a: &[u8], b: &[u8], merged: &mut [u8]) -> Result<(), Refusal>
    ensures { Merging (record { fields = fields; a = a.now; b = b.now; merged = merged.old }) (answered result) merged.new × Narrowest (record { fields = fields; a = a.now; b = b.now; merged = merged.old }) (answered result) merged.new }
{
    merge_refusal(fields, a, b, merged.len())?;
    store_common(fields, a, b, merged);
    Ok(())
}
