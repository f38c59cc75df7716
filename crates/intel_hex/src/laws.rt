//! Laws of Intel HEX files, each the contract of a function that does nothing.

ghost use Rattle.std.specs.Prelude.{◌≡◌, ℕ, List, Ok};
ghost use Rattle.chip_tables.specs.declared.target.Target.{Target};
ghost use Rattle.intel_hex.specs.declared.image.Image.{Image};
ghost use Rattle.intel_hex.specs.Image.{IsImage};
ghost use Rattle.intel_hex.specs.Text.{hex_text};
ghost use Rattle.intel_hex.specs.Verdict.{hex_verdict};

/// What is written for an image that a chip has room for is read as that image.
pub fn written_is_read()
    ensures { (image : Image) → IsImage image → hex_verdict image.target (hex_text image) ≡ Ok image }
{}

/// A chip has room for each image that is read for it.
pub fn read_is_image()
    ensures { (target : Target) (text : List ℕ) (image : Image) → hex_verdict target text ≡ Ok image → (image.target ≡ target) × IsImage image }
{}
