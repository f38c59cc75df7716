//! Laws of what lines say, each the contract of a function that does nothing.

ghost use Rattle.std.specs.Prelude.{◌≡◌, ◌↔◌, ℕ, List, Some, true};
ghost use Rattle.ladder_tree.specs.declared.element.LeafKind.{LeafKind};
ghost use Rattle.ld_line.specs.declared.said.Said.TheVariants.{Is};
ghost use Rattle.ld_line.specs.declared.word.Word.{Word};
ghost use Rattle.ld_line.specs.Words.{spelling, word_of};
ghost use Rattle.ld_line.specs.Elements.{element_of};
ghost use Rattle.ld_line.specs.Pins.{pin_of_line};
ghost use Rattle.ld_line.specs.Header.{header_of};
ghost use Rattle.ld_line.specs.declared.pins.PinsLine.{PinsLine};
ghost use Rattle.ld_line.specs.declared.header.HeaderLine.{HeaderLine};
ghost use Rattle.ld_line.specs.Range.{is_read_kind, is_read_pin, is_read_setting};

/// A token is a word where it is spelled like the word, and nowhere else.
pub fn words_are_spelled()
    ensures { (token : List ℕ) (word : Word) → (word_of token ≡ Some word) ↔ (token ≡ spelling word) }
{}

/// What an element's line says has names that are names, and numbers in their ranges.
pub fn elements_are_in_range()
    ensures { (word : Word) (ts : List (List ℕ)) (line : List ℕ) (k : LeafKind) → element_of word ts line ≡ Is k → is_read_kind k ≡ true }
{}

/// A pin line's name is a name, and its pin in its range.
pub fn pins_are_in_range()
    ensures { (ts : List (List ℕ)) (p : PinsLine) → pin_of_line ts ≡ Is p → is_read_pin p ≡ true }
{}

/// A number of the header is in its range.
pub fn settings_are_in_range()
    ensures { (line : List ℕ) (h : HeaderLine) → header_of line ≡ Is h → is_read_setting h ≡ true }
{}
