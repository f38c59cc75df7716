//! From a project that was judged to the text that is written and its report.

ghost use Rattle.std.specs.Prelude.{◌≡◌, None, IfOk};
ghost use Rattle.std.specs.String.{string_bytes};
ghost use Rattle.ldmicro_top.specs.Judged.{IsJudged};
ghost use Rattle.ldmicro_top.specs.Ran.{IsEmitted};
ghost use Rattle.ldmicro_top.specs.Verdict.{code_fault};

use crate::kept::plan_of;
use crate::report::{avr_report, c_report, report};
use avr_file::write::compile_hex;
use c_output::write::write_c;
use chip_tables::Target;
use interp_code::write::write_interp;
use ladder_lower::program::lower;
use ladder_rules::Legal;
use std::alloc::{AllocError, Global};
use texts::Text;

/// What a project compiles to.
#[derive(Drop)]
pub struct Compiled {
    /// The HEX file, the interpretable text or the C text.
    pub code: Text,
    /// What is printed of it.
    pub report: String,
}

/// Compiles a project for its target.
pub fn compile_legal(alloc: Global, legal: &Legal) -> Result<Compiled, AllocError>
    requires judged { IsJudged legal.now.names legal.now.project }
    requires room { code_fault legal.now.project ≡ None }
    ensures { IfOk result (λ c. IsEmitted legal.now.project c.code (string_bytes c.report)) }
{
    match legal.project().target {
        Target::AnsiC => compile_c(alloc, legal),
        Target::Mega16 => compile_avr(alloc, legal),
        Target::Interp | Target::F628 | Target::F877 => compile_interp(alloc, legal),
    }
}

/// Lowers a project, and writes its program and its report: each step's promise is the next one's premise.
fn compile_interp(alloc: Global, legal: &Legal) -> Result<Compiled, AllocError>
    requires judged { IsJudged legal.now.names legal.now.project }
    requires target { legal.now.project.target ≡ Target.Interp }
    ensures { IfOk result (λ c. IsEmitted legal.now.project c.code (string_bytes c.report)) }
{
    let project = legal.project();
    let names = legal.names();
    let program = lower(alloc, project, names)?;
    let code = write_interp(alloc, project.cycle, names, &program)?;
    let report = report(alloc, names, program.ops.len())?;
    Ok(Compiled { code, report })
}

/// Lowers a project to the words of the ATmega16, and writes its HEX file and its report.
fn compile_avr(alloc: Global, legal: &Legal) -> Result<Compiled, AllocError>
    requires judged { IsJudged legal.now.names legal.now.project }
    requires target { legal.now.project.target ≡ Target.Mega16 }
    requires room { code_fault legal.now.project ≡ None }
    ensures { IfOk result (λ c. IsEmitted legal.now.project c.code (string_bytes c.report)) }
{
    let names = legal.names();
    let program = lower(alloc, legal.project(), names)?;
    let plan = plan_of(legal);
    let file = compile_hex(alloc, legal, &program, &plan)?;
    let report = avr_report(alloc, names, file.words, file.cycles, file.boot)?;
    Ok(Compiled {
        code: file.text,
        report,
    })
}

/// Writes a project's C text and its report.
fn compile_c(alloc: Global, legal: &Legal) -> Result<Compiled, AllocError>
    requires judged { IsJudged legal.now.names legal.now.project }
    requires target { legal.now.project.target ≡ Target.AnsiC }
    ensures { IfOk result (λ c. IsEmitted legal.now.project c.code (string_bytes c.report)) }
{
    let names = legal.names();
    let code = write_c(alloc, legal.project(), names)?;
    let report = c_report(alloc, names)?;
    Ok(Compiled { code, report })
}
