//! What visitors have seen.
ghost use Rattle.std.specs.Prelude.{◌≡◌, IfOk, OnErr, OnOk, replicate};
ghost use Rattle.world_desk.specs.Desks.{change_at};
ghost use Rattle.world_desk.specs.Sights.{seen};
ghost use Rattle.world_desk.specs.Visitors.{unseen};

use change_log::Log;
use std::alloc::{AllocError, Global};
use std::marker::Model;

/// How a visitor comes to see a log.
#[derive(Clone, Copy)]
pub(crate) enum Sight {
    /// It looks.
    Look,
    /// It is told.
    Telling,
}

/// The logs of a visitor's looks, in order, and the logs that it was told of, each with how many looks it had then.
#[derive(Drop)]
pub(crate) struct Visitor {
    pub(crate) looks: Vec<Log>,
    pub(crate) told: Vec<(usize, Log)>,
}

impl Model for Visitor {
    ghost use Rattle.change_log.specs.contracts.logs.Log as logs;
    ghost use Rattle.world_desk.specs.Visitors.{Watched, coded_watched};

    ghost Value = { Watched };

    ghost coded = { coded_watched logs.the_row.coded };

    ghost view = { λ v. record { looks = v.looks.items; told = v.told.items } };
}

impl Visitor {
    /// It has seen nothing yet.
    fn new(alloc: Global) -> Visitor
        ensures { result ≡ unseen }
    {
        Visitor {
            looks: Vec::new(alloc),
            told: Vec::new(alloc),
        }
    }

    /// It sees this log.
    fn see(&mut self, sight: Sight, log: Log) -> Result<(), AllocError>
        ensures ok { OnOk result (self.new ≡ seen sight log self.old) }
        ensures err { OnErr result (self.new ≡ self.old) }
    {
        match sight {
            Sight::Look => self.looks.push(log)?,
            Sight::Telling => {
                let looks = self.looks.len();
                self.told.push((looks, log))?;
            }
        }
        Ok(())
    }
}

/// This many visitors, who have seen nothing yet.
pub(crate) fn visitors_of(alloc: Global, count: usize) -> Result<Vec<Visitor>, AllocError>
    ensures { IfOk result (λ visitors. visitors.items ≡ replicate count unseen) }
{
    let mut visitors = Vec::new(alloc);
    for _ in 0..count {
        visitors.push(Visitor::new(alloc))?;
    }
    Ok(visitors)
}

/// A visitor sees what is shown, if there is one with this number. If memory runs out, nothing changes.
pub(crate) fn show_to(
    visitors: &mut Vec<Visitor>,
    visitor: usize,
    sight: Sight,
    shown: &Log,
) -> Result<(), AllocError>
    ensures ok { OnOk result (visitors.new.items ≡ change_at visitor (seen sight shown.now) visitors.old.items) }
    ensures err { OnErr result (visitors.new.items ≡ visitors.old.items) }
{
    if visitor < visitors.len() {
        let log = shown.copy()?;
        let visitor = &mut visitors[visitor];
        visitor.see(sight, log)?;
    }
    Ok(())
}
