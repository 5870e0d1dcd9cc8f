//! The catalog that the setup of a script makes.

ghost use Rattle.std.specs.Prelude.{◌≡◌, Ok, IfOk, IfErr, OnOk};
ghost use Rattle.aq_setup.specs.Setup as setup;
ghost use Rattle.aq_define.specs.Built.{IsAtLine, IsRefusedAt, IsSetupFault};

use crate::setup::Define;
use aq_base::{NativeName, Placed, Script, SqlFault};
use aq_catalog::Catalog;
use aq_refusals::CatFault;
use std::alloc::Global;
use thiserror::Error;

/// Why the setup of a script is refused.
#[derive(Debug, Drop, Error)]
pub enum BuildFault {
    /// Memory ran out.
    #[error("out of memory")]
    NoMemory,
    /// The statement on a line is refused.
    #[error("refused")]
    Setup { line: u64, fault: SqlFault },
}

fn at_line(line: u64, fault: CatFault) -> BuildFault
    ensures { IsAtLine line fault result }
{
    match fault {
        CatFault::NoMemory => BuildFault::NoMemory,
        CatFault::Sql(fault) => BuildFault::Setup { line, fault },
    }
}

#[tactic(auto, using(crate::proofs::Building_on::refused_at))]
fn add(
    catalog: &mut Catalog,
    alloc: Global,
    placed: &Placed,
    natives: &[NativeName],
) -> Result<(), BuildFault>
    ensures ok { OnOk result (setup.define natives.now catalog.old placed.now.statement ≡ Ok catalog.new) }
    ensures err { IfErr result (IsRefusedAt (setup.define natives.now catalog.old placed.now.statement) placed.now.line) }
{
    match catalog.define(alloc, &placed.statement, natives) {
        Ok(()) => Ok(()),
        Err(fault) => Err(at_line(placed.line, fault)),
    }
}

/// The catalog that the setup of a script makes, or the first statement that is refused.
#[tactic(auto, using(crate::proofs::Building_on::built_on, crate::proofs::Building_on::refused_here))]
pub fn build(alloc: Global, script: &Script, natives: &[NativeName]) -> Result<Catalog, BuildFault>
    ensures ok { IfOk result (λ made. setup.setup natives.now script.now ≡ Ok made) }
    ensures err { IfErr result (IsSetupFault (setup.setup natives.now script.now)) }
{
    let mut catalog = Catalog::new(alloc);
    for placed in script.setup.as_slice() {
        add(&mut catalog, alloc, placed, natives)?;
    }
    Ok(catalog)
}
