//! Laws of the meaning of operations, each the contract of a function that does nothing.

ghost use Rattle.std.specs.Prelude.{◌≡◌, ◌≤◌, true, List, [], length, All};
ghost use Rattle.ladder_meaning.specs.declared.reading.Reading.{Reading};
ghost use Rattle.int_code.specs.declared.op.IntOp.{IntOp};
ghost use Rattle.int_code.specs.Meaning.{Moment, cycle, history};
ghost use Rattle.int_code.specs.Store.{Store};

/// In a cycle no more operations are executed than there are.
pub fn cycle_executes_each_once()
    ensures cycle { (r : Reading) (ops : List IntOp) (t : Store) → (cycle r ops t).count ≤ length ops }
    ensures history { (ops : List IntOp) (t : Store) (rs : List Reading) → All (λ (m : Moment). m.count ≤ length ops) (history ops t rs) }
{}

/// A cycle sends one byte at most.
pub fn a_cycle_sends_one_byte_at_most()
    ensures { (r : Reading) (ops : List IntOp) (t : Store) → length (cycle r ops t).store.devices.sent ≤ 1 }
{}

/// A cycle sends nothing where the transmitter still sends as it begins.
pub fn a_busy_transmitter_gets_no_byte()
    ensures { (r : Reading) (ops : List IntOp) (t : Store) → r.tx_busy ≡ true → (cycle r ops t).store.devices.sent ≡ [] }
{}
