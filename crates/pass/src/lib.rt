// One pass over the gates, through a working table of values (specification, 3.3).
#![tactic(auto)]

ghost use Rattle.std.specs.Prelude.{◌≡◌, ◌++◌, ◌+◌, ◌*◌, ◌<◌, ◌≤◌, length, get_or, set, take};
ghost use Rattle.std.proofs.Math.Seq.{paste};
ghost use Rattle.three.specs.Lists.{every, over};
ghost use Rattle.three.specs.Value.{unknown, low, code, decode, both, ternary};
ghost use Rattle.three.specs.RecordInCode.{gate_table};
ghost use Rattle.three.specs.Record.{bytes_for, byte_at, pack, unpack};
ghost use Rattle.three.specs.RecordInCode.{IsRecord};
ghost use Rattle.circuit.specs.Circuit.{value, pass, settle as settle_values};
ghost use Rattle.circuit.specs.Table.{circuit_of};
ghost use Rattle.circuit.specs.RulesInCode.{Legal};
ghost use Rattle.pass.specs.ValuesInCode.{values_of, fresh_values, Working, Holding, Begins, sign_table, Gateable, Readable, literal_values, passed};

use circuit::Board;

// A working table of 4,096 values, packed as a record: two bits each.
const VALUE_BYTES: usize = 1024;

#[derive(Clone, Copy)]
pub struct Values {
    pub bytes: [u8; VALUE_BYTES],
    pub ghost working: { Working bytes },
}

// It is made and reached through these methods alone.
impl Values {
    pub fn fresh() -> Self
        ensures { Holding result.bytes fresh_values }
    {
        let mut values = Values {
            bytes: [0; VALUE_BYTES],
        };
        values.put(0, 1); // the constant
        values
    }

    pub fn get(&self, v: usize) -> u8
        requires { v < 4096 }
        ensures { result ≡ code (get_or (values_of self.now.bytes) v low) }
    {
        three::field(&self.bytes, v)
    }

    fn put(&mut self, v: usize, x: u8)
        requires { (v < 4096) × (x < 3) }
        ensures { Holding self.new.bytes (set (values_of self.old.bytes) v (decode x)) }
    {
        self.bytes[v / 4] = three::put_field(self.bytes[v / 4], v % 4, x);
    }
}

// A value as it is, and inverted: "Inverting swaps 0 and 1 and keeps X.".
static SIGN: [[u8; 3]; 2] = [[0, 1, 2], [0, 2, 1]];

// A literal is 2 × variable, plus 1 if inverted.
pub fn literal(values: &Values, x: u16) -> u8
    requires { x < 8192 }
    ensures { result ≡ code (value ternary (values_of values.now.bytes) x) }
{
    let v = values.get((x / 2) as usize);
    SIGN[(x % 2) as usize][v as usize]
}

fn gate(values: &Values, left: u16, right: u16) -> u8
    requires { (left < 8192) × (right < 8192) }
    ensures { result ≡ code (both (value ternary (values_of values.now.bytes) left) (value ternary (values_of values.now.bytes) right)) }
{
    three::and3(literal(values, left), literal(values, right))
}

// Gates are taken in order: those from word `at` on, the first of them variable `first`.
fn gates(table: &[u16], at: usize, first: usize, count: usize, values: &mut Values)
    requires { Gateable table.now at first count }
    ensures { Holding values.new.bytes (passed table.now at first count (values_of values.old.bytes)) }
{
    for i in 0..count {
        let p = at + 2 * i;
        let v = gate(values, table[p], table[p + 1]);
        values.put(first + i, v);
    }
}

// Gates that fill whole bytes of the working table, from byte number `byte` on.
fn gate_bytes(table: &[u16], at: usize, byte: usize, count: usize, values: &mut Values)
    requires { Gateable table.now at (4 * byte) (4 * count) }
    ensures { Holding values.new.bytes (passed table.now at (4 * byte) (4 * count) (values_of values.old.bytes)) }
{
    for k in 0..count {
        gates(table, at + 8 * k, 4 * (byte + k), 4, values);
    }
}

// All of them. The four gates of a byte stand together, so that the compiler knows their places in it: a run takes a fifth less time.
fn all_gates(table: &[u16], at: usize, first: usize, count: usize, values: &mut Values)
    requires { Gateable table.now at first count }
    ensures { Holding values.new.bytes (passed table.now at first count (values_of values.old.bytes)) }
{
    let front = 3 - (first + 3) % 4;
    if count < front {
        gates(table, at, first, count, values);
        return;
    }
    let bytes = (count - front) / 4;
    let done = front + 4 * bytes;
    gates(table, at, first, front, values);
    gate_bytes(table, at + 2 * front, (first + front) / 4, bytes, values);
    gates(table, at + 2 * done, first + done, count - done, values);
}

// The fields of a record as the values of the variables from `first` on.
fn load(bytes: &[u8], first: usize, count: usize, values: &mut Values)
    requires { IsRecord count bytes.now × (first + count ≤ 4096) }
    ensures { Holding values.new.bytes (paste (values_of values.old.bytes) first (unpack count bytes.now) count) }
{
    for i in 0..count {
        let v = three::field(bytes, i);
        values.put(first + i, v);
    }
}

// One pass over a state, for the constant and the switches that stand in the table: the state, and then each gate in order.
pub fn settle_state(board: &Board<'_>, state: &[u8], values: &mut Values)
    requires { IsRecord board.now.counts.latches state.now }
    ensures { Begins values.new.bytes (pass ternary (take (1 + board.now.counts.inputs) (values_of values.old.bytes) ++ unpack board.now.counts.latches state.now) (circuit_of board.now.counts board.now.table.now).gates) }
{
    let first = 1 + board.counts.inputs;
    load(state, first, board.counts.latches, values);
    all_gates(
        board.table,
        board.counts.gates_at(),
        first + board.counts.latches,
        board.counts.gates,
        values,
    );
}

// One pass: the constant, the switches, the state, and then each gate in order.
pub fn settle(board: &Board<'_>, state: &[u8], switches: &[u8], values: &mut Values)
    requires { IsRecord board.now.counts.latches state.now × IsRecord board.now.counts.inputs switches.now }
    ensures { Begins values.new.bytes (settle_values ternary (circuit_of board.now.counts board.now.table.now) (unpack board.now.counts.inputs switches.now) (unpack board.now.counts.latches state.now)) }
{
    values.put(0, 1);
    load(switches, 1, board.counts.inputs, values);
    settle_state(board, state, values);
}

// The record of the values of `count` literals, one every `step` words from word `at` on, into the front of `out`.
pub fn store(values: &Values, table: &[u16], at: usize, step: usize, count: usize, out: &mut [u8])
    requires { Readable table.now at step count × (count ≤ 4096) × (bytes_for count ≤ length out.old) }
    ensures { out.new ≡ over (pack (literal_values (values_of values.now.bytes) table.now at step count)) out.old }
{
    three::store_fields(count, |i| literal(values, table[at + step * i]), out);
}
