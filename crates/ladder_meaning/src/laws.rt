//! Laws of the meaning of ladders, each the contract of a function that does nothing.

ghost use Rattle.std.specs.Prelude.{◌≡◌, ◌≢◌, ◌≤◌, ℕ, true, List, [], ◌++◌, length, All, ℤ, pos, negsuc, ◌+ℤ◌, ◌≤ℤ◌, ◌<ℤ◌};
ghost use Rattle.ladder_tree.specs.declared.project.Project.{Project};
ghost use Rattle.ladder_meaning.specs.Bounds.{HasNumbers, SeesNumbers, AreNumbers, IsDuty, WaitsFor, persistent_of};
ghost use Rattle.ladder_meaning.specs.Cycle.{Ended, cycle, history, last_of};
ghost use Rattle.ladder_meaning.specs.Numbers.{next};
ghost use Rattle.ladder_meaning.specs.Rows.{WorkedRows};
ghost use Rattle.ladder_meaning.specs.State.{State, Seen};

/// A history goes on from the state that it came to: what a ladder does hangs on nothing but its state and what it sees.
pub fn history_goes_on()
    ensures { (p : Project) (s : State) (rs qs : List Seen) → history p s (rs ++ qs) ≡ history p s rs ++ history p (last_of s (history p s rs)) qs }
{}

/// A cycle sends at most one byte, and none where the transmitter still sends.
pub fn a_cycle_sends_one_byte_at_most()
    ensures one { (p : Project) (s : State) (r : Seen) → length (cycle p s r).sent ≤ 1 }
    ensures busy { (p : Project) (s : State) (r : Seen) → r.sending ≡ true → (cycle p s r).sent ≡ [] }
{}

/// A cycle writes at most one byte of the EEPROM, and none where the EEPROM still writes.
pub fn a_cycle_writes_one_byte_at_most()
    ensures one { (p : Project) (s : State) (r : Seen) → (address : ℕ) × ((a : ℕ) → a ≢ address → (cycle p s r).state.eeprom a ≡ s.eeprom a) }
    ensures busy { (p : Project) (s : State) (r : Seen) → r.writing ≡ true → (a : ℕ) → (cycle p s r).state.eeprom a ≡ s.eeprom a }
{}

/// Below a number of 16 bits one more is plain addition: no timer and no round counter goes past its limit by wrapping.
pub fn counting_is_plain()
    ensures { (n limit : ℤ) → negsuc 32767 ≤ℤ n → limit ≤ℤ pos 32767 → n <ℤ limit → next n ≡ n +ℤ pos 1 }
{}

/// A cycle keeps each variable's number within 16 bits, where the numbers of the text and of the reading are.
pub fn numbers_keep_16_bits()
    ensures cycle { (p : Project) (s : State) (r : Seen) → HasNumbers p → SeesNumbers r → AreNumbers s.number → AreNumbers (cycle p s r).state.number }
    ensures history { (p : Project) (s : State) (rs : List Seen) → HasNumbers p → All SeesNumbers rs → AreNumbers s.number → All (λ (e : Ended). AreNumbers e.state.number) (history p s rs) }
{}

/// The duty of a history is from 0 to 100 percent.
pub fn a_duty_is_a_percentage()
    ensures { (p : Project) (s : State) (rs : List Seen) → IsDuty s.duty → All (λ (e : Ended). IsDuty e.state.duty) (history p s rs) }
{}

/// A byte that waits to be written has the address 2 * a + 1, where a is the number of a persistent variable.
pub fn a_high_byte_waits()
    ensures { (p : Project) (s : State) (rs : List Seen) → WaitsFor (persistent_of p) s.pending → All (λ (e : Ended). WaitsFor (persistent_of p) e.state.pending) (history p s rs) }
{}

/// What small ladders do, cycle by cycle.
pub fn worked_rows()
    ensures { WorkedRows }
{}
