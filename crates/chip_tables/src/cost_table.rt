//! The table of costs.

ghost use Rattle.std.specs.Prelude.{◌≡◌};
ghost use Rattle.chip_tables.specs.Cost.{row, row_of, cost_of};

use crate::cost_kind::{Cost, CostKind};
use crate::target::Target;

/// The cost of a part on a target. On a target that is no chip it has operations alone.
pub fn cost(target: Target, kind: CostKind) -> Cost
    ensures { result ≡ cost_of target kind }
{
    let row = row_of_kind(kind);
    let (words, cycles) = match target {
        Target::F628 => (row.f628, row.cycles),
        Target::F877 => (row.f877, row.cycles),
        Target::Mega16 => (row.mega16, row.cycles),
        Target::Interp | Target::AnsiC => (NOTHING, NOTHING),
    };
    Cost {
        words: words.once,
        words_each: words.each,
        cycles: cycles.once,
        cycles_each: cycles.each,
        ops: row.ops.once,
        ops_each: row.ops.each,
    }
}

/// A cell of the table: what counts once, and what counts for each place or entry.
#[derive(Clone, Copy)]
struct CostCell {
    once: u32,
    each: u32,
}

/// A row of the table: the words on each chip, the cycles and the operations.
#[derive(Clone, Copy)]
struct CostRow {
    f628: CostCell,
    f877: CostCell,
    mega16: CostCell,
    cycles: CostCell,
    ops: CostCell,
}

const NOTHING: CostCell = CostCell { once: 0, each: 0 };

const SHIFT: CostRow = CostRow {
    f628: CostCell { once: 30, each: 16 },
    f877: CostCell { once: 40, each: 16 },
    mega16: CostCell { once: 40, each: 12 },
    cycles: CostCell { once: 60, each: 20 },
    ops: CostCell { once: 8, each: 1 },
};

const TABLE: CostRow = CostRow {
    f628: CostCell { once: 30, each: 16 },
    f877: CostCell { once: 40, each: 22 },
    mega16: CostCell { once: 30, each: 18 },
    cycles: CostCell { once: 60, each: 24 },
    ops: CostCell { once: 4, each: 0 },
};

const LINEAR: CostRow = CostRow {
    f628: CostCell {
        once: 60,
        each: 180,
    },
    f877: CostCell {
        once: 80,
        each: 230,
    },
    mega16: CostCell {
        once: 60,
        each: 170,
    },
    cycles: CostCell {
        once: 4400,
        each: 80,
    },
    ops: CostCell { once: 10, each: 7 },
};

const FORMATTED: CostRow = CostRow {
    f628: CostCell {
        once: 250,
        each: 40,
    },
    f877: CostCell {
        once: 340,
        each: 56,
    },
    mega16: CostCell {
        once: 260,
        each: 36,
    },
    cycles: CostCell {
        once: 900,
        each: 60,
    },
    ops: CostCell { once: 45, each: 4 },
};

const FORMATTED_FIELD: CostRow = CostRow {
    f628: CostCell { once: 0, each: 150 },
    f877: CostCell { once: 0, each: 190 },
    mega16: CostCell { once: 0, each: 140 },
    cycles: CostCell {
        once: 0,
        each: 4700,
    },
    ops: CostCell { once: 0, each: 14 },
};

/// A row whose costs count once.
fn fixed(f628: u32, f877: u32, mega16: u32, cycles: u32, ops: u32) -> CostRow
    ensures { result ≡ row f628 f877 mega16 cycles ops }
{
    CostRow {
        f628: CostCell {
            once: f628,
            each: 0,
        },
        f877: CostCell {
            once: f877,
            each: 0,
        },
        mega16: CostCell {
            once: mega16,
            each: 0,
        },
        cycles: CostCell {
            once: cycles,
            each: 0,
        },
        ops: CostCell { once: ops, each: 0 },
    }
}

fn row_of_kind(kind: CostKind) -> CostRow
    ensures { result ≡ row_of kind }
{
    match kind {
        CostKind::Base => fixed(160, 260, 240, 60, 4),
        CostKind::MulFeature => fixed(100, 160, 160, 0, 0),
        CostKind::DivFeature => fixed(200, 300, 320, 0, 0),
        CostKind::PersistFeature => fixed(140, 220, 160, 0, 0),
        CostKind::UartFeature => fixed(20, 30, 30, 0, 0),
        CostKind::AdcFeature => fixed(0, 30, 30, 0, 0),
        CostKind::PwmFeature => fixed(0, 40, 30, 0, 0),
        CostKind::Rung => fixed(8, 10, 10, 16, 2),
        CostKind::Parallel => fixed(16, 20, 20, 30, 4),
        CostKind::Branch => fixed(12, 20, 22, 30, 8),
        CostKind::Contacts => fixed(8, 8, 10, 12, 4),
        CostKind::Coil => fixed(12, 16, 22, 24, 6),
        CostKind::OneShot => fixed(26, 40, 40, 60, 8),
        CostKind::Still => fixed(0, 0, 0, 0, 0),
        CostKind::Open => fixed(2, 2, 2, 4, 2),
        CostKind::TonRto => fixed(66, 84, 66, 100, 14),
        CostKind::Tof => fixed(80, 100, 80, 110, 14),
        CostKind::Count => fixed(80, 100, 80, 120, 16),
        CostKind::Reset => fixed(14, 18, 16, 24, 4),
        CostKind::Move => fixed(20, 24, 22, 30, 4),
        CostKind::AddSub => fixed(36, 42, 36, 52, 4),
        CostKind::Mul => fixed(44, 54, 44, 1600, 4),
        CostKind::Div => fixed(44, 54, 44, 2600, 4),
        CostKind::Compare => fixed(50, 58, 44, 70, 8),
        CostKind::Shift => SHIFT,
        CostKind::Table => TABLE,
        CostKind::ReadAdc => fixed(0, 70, 60, 200, 4),
        CostKind::SetPwm => fixed(0, 170, 140, 4500, 4),
        CostKind::Uart => fixed(30, 36, 30, 60, 8),
        CostKind::Persist => fixed(110, 140, 120, 500, 20),
        CostKind::MasterRelay => fixed(16, 24, 24, 36, 8),
        CostKind::Linear => LINEAR,
        CostKind::Formatted => FORMATTED,
        CostKind::FormattedField => FORMATTED_FIELD,
    }
}
