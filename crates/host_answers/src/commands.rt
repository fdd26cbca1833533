//! Commands and undos: they become entries, and replies tell of these.
ghost use Rattle.std.specs.Prelude.{◌≡◌, Bool, None, Some, Ok};
ghost use Rattle.site_state.specs.Listings.{Listed};
ghost use Rattle.host_answers.specs.Deploys.{IsOpening, opened_by};
ghost use Rattle.change_log.specs.Logs.{entry_at};
ghost use Rattle.site_change.specs.declared.entries.Entry.TheVariants as entry;
ghost use Rattle.site_change.specs.declared.commands.Command.{Command as Change};
ghost use Rattle.site_change.specs.declared.commands.Command.TheVariants as command;
ghost use Rattle.host_names.specs.declared.names.SiteName.{SiteName as Site};
ghost use Rattle.host_replies.specs.Bodies.{answer_of};
ghost use Rattle.host_replies.specs.Replies.{Tells};
ghost use Rattle.host_answers.specs.Answers as spec;
ghost use Rattle.host_answers.specs.Answers.{ChangesBy, FollowsBy, OfDeploy, PublishesBy, UndoesBy};

use crate::deploys::site_of_deploy;
use crate::houses::House;
use crate::stops::Stop;
use crate::telling::{no_such_deploy, refuse, tell_entry};
use host_api::{Items, Told};
use host_names::{Digest, SiteName};
use host_replies::Reply;
use site_change::{Command, Entry};
use site_state::Listing;
use std::alloc::{AllocError, Global};

/// The reply to an undo, which becomes an entry.
pub(crate) fn undo<H: House>(alloc: Global, house: &mut H, site: &SiteName, change: u64) -> Reply
    ensures { UndoesBy H.calls house.old site.now change (answer_of result) house.new }
{
    let done = house.undo(site, change);
    tell_entry(alloc, done)
}

/// The reply to a command that opens nothing. It becomes an entry, and nothing more follows.
fn commit<H: House>(alloc: Global, house: &mut H, command: Command) -> Reply
    requires { opened_by command ≡ None }
    ensures { ChangesBy H.calls house.old command (answer_of result) house.new }
{
    let done = house.commit(command);
    tell_entry(alloc, done)
}

/// The reply that tells the entry which publishes a deploy, right after the one that opened it.
fn tell_publishing(alloc: Global, id: u64, done: Result<u64, Stop>) -> Reply
    ensures { Tells (spec.told_publishing id done) (answer_of result) }
{
    match done {
        Ok(number) => Reply::of_told(
            alloc,
            &Told::Opened {
                id,
                published: Some(number),
                required: Items::from(Vec::new(alloc)),
            },
        ),
        Err(why) => refuse(alloc, why.into()),
    }
}

/// The reply after a deploy was opened. The deploy is published if it is to publish itself and lacks nothing.
fn publish<H: House>(
    alloc: Global,
    house: &mut H,
    site: SiteName,
    id: u64,
    auto: bool,
    required: Items<Digest>,
) -> Reply
    ensures { PublishesBy H.calls house.old site id auto required (answer_of result) house.new }
{
    if auto && required.as_slice().is_empty() {
        let done = house.commit(Command::Publish { site, number: id });
        return tell_publishing(alloc, id, done);
    }
    Reply::of_told(
        alloc,
        &Told::Opened {
            id,
            published: None,
            required,
        },
    )
}

/// What the deploy lacks that the entry with this number opened.
fn lacking<H: House>(alloc: Global, house: &H, id: u64) -> Result<Items<Digest>, AllocError>
    requires { (command : Change) × IsOpening command
        × (entry_at (H.calls.seen house.now).entries id ≡ Some (entry.Change command)) }
    ensures { (site : Site) (files : Listed) (auto : Bool)
        → entry_at (H.calls.seen house.now).entries id ≡ Some (entry.Change (command.Open site files auto))
        → H.calls.misses house.now files.1 result }
{
    let Some(Entry::Change(Command::Open { files, .. })) = house.log().entry(id) else {
        unreachable!();
    };
    house.missing(alloc, files)
}

/// The reply after an entry opened a deploy of a site.
///
/// If there is no memory to list what the deploy lacks, the entry stands. The contract tells this as an opening for whose reply there was
/// no memory: what is lacking is a list, whether or not it was made.
fn follow<H: House>(alloc: Global, house: &mut H, site: SiteName, id: u64, auto: bool) -> Reply
    requires { (command : Change) × IsOpening command
        × (entry_at (H.calls.seen house.old).entries id ≡ Some (entry.Change command)) }
    ensures { (owner : Site) (files : Listed) (listed : Bool)
        → entry_at (H.calls.seen house.old).entries id ≡ Some (entry.Change (command.Open owner files listed))
        → FollowsBy H.calls house.old (Some (record { site = site; files = files.1; auto = auto })) (Ok id)
        (answer_of result) house.new }
{
    match lacking(alloc, house, id) {
        Ok(required) => publish(alloc, house, site, id, auto, required),
        Err(_) => Reply::out_of_memory(),
    }
}

/// The reply to an opening. It becomes an entry first; then the house is asked what the deploy lacks.
fn open<H: House>(alloc: Global, house: &mut H, site: SiteName, files: Listing, auto: bool) -> Reply
    ensures { ChangesBy H.calls house.old (command.Open site files auto) (answer_of result) house.new }
{
    let owner = site.copied();
    match house.commit(Command::Open { site, files, auto }) {
        Ok(id) => follow(alloc, house, owner, id, auto),
        Err(why) => refuse(alloc, why.into()),
    }
}

/// The reply to a command. It becomes an entry, and after an opening more may follow.
pub(crate) fn change<H: House>(alloc: Global, house: &mut H, command: Command) -> Reply
    ensures { ChangesBy H.calls house.old command (answer_of result) house.new }
{
    match command {
        Command::Open { site, files, auto } => open(alloc, house, site, files, auto),
        other => commit(alloc, house, other),
    }
}

/// The reply to the cancelling of a deploy, in its site.
pub(crate) fn cancel<H: House>(alloc: Global, house: &mut H, number: u64) -> Reply
    ensures { OfDeploy H.calls house.old number
        (λ site. ChangesBy H.calls house.old (command.Cancel site number)) (answer_of result) house.new }
{
    match site_of_deploy(house.log(), number) {
        Some(site) => commit(alloc, house, Command::Cancel { site, number }),
        None => no_such_deploy(),
    }
}

/// The reply to the removal of a deploy, in its site.
pub(crate) fn remove_deploy<H: House>(alloc: Global, house: &mut H, number: u64) -> Reply
    ensures { OfDeploy H.calls house.old number
        (λ site. ChangesBy H.calls house.old (command.RemoveDeploy site number)) (answer_of result) house.new }
{
    match site_of_deploy(house.log(), number) {
        Some(site) => commit(alloc, house, Command::RemoveDeploy { site, number }),
        None => no_such_deploy(),
    }
}
