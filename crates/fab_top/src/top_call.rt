//! The top call: what the program does but for reaching the outside. Words are read, the command that they spell
//! takes its files and finds its answer, and the answer's texts are put, that of the output first. Statuses are the
//! usual ones of a command: 0 done, 1 no, 2 unknown words, 3 a refusal, 4 to 6 a fault of the outside.
ghost use Rattle.std.specs.Prelude.{◌≡◌, None, Some};
ghost use Rattle.fab_top.specs.Words.{texts, command_of};
ghost use Rattle.fab_top.specs.Outcomes.{Obeys};
ghost use Rattle.fab_top.specs.Outputs.{PutsUnread};
ghost use Rattle.fab_top.specs.Ran.{Ran};
ghost use Rattle.fab_top.specs.Usage.{usage_text};

use crate::command::Command;
use crate::commands::{
    certify, check, convert, cut, drain, export, generate, load, mcast, repair, replies, show,
    spread, sweep, transit,
};
use crate::fault_texts::unread_text;
use crate::outcome::{Outcome, Stop};
use crate::outputs::{put_answer, put_outcome};
use crate::routing::{demo, route};
use crate::words::{WordsFault, read_words};
use fab_io::{PutFault, Shelf, Sink};
use std::alloc::Global;

const USAGE: &[u8] = b"usage: fabroute check FABRIC PLAN
       fabroute route minhop|dor|sssp FABRIC
       fabroute route updn FABRIC [--root GUID]
       fabroute route lash|dfsssp|nue FABRIC --lanes N
       fabroute certify FABRIC PLAN
       fabroute convert FABRIC PLAN
       fabroute repair FABRIC PLAN FAILED --lanes N
       fabroute cut FABRIC FAILED
       fabroute show FABRIC PLAN SRC DST
       fabroute load FABRIC PLAN
       fabroute gen KIND A B SEED
       fabroute demo KIND A B SEED ENGINE N
       fabroute transit FABRIC OLD NEW
       fabroute drain FABRIC PLAN
       fabroute mcast FABRIC GROUPS
       fabroute spread FABRIC GROUPS GROUP LID
       fabroute sweep cables FABRIC PLAN --lanes N
       fabroute sweep switches FABRIC PLAN --lanes N
       fabroute export tables|levels|config FABRIC PLAN
       fabroute replies FABRIC PLAN
";

fn usage() -> &'static [u8]
    ensures { result.now ≡ usage_text }
{
    USAGE
}

/// What a command answers.
fn obey<F: Shelf>(
    alloc: Global,
    words: &[String],
    shelf: &mut F,
    command: Command,
) -> Result<Outcome, Stop>
    requires { command_of (texts words.now) ≡ Some command }
    ensures { Obeys command (texts words.now) (F.told shelf.old) (F.faults shelf.old) (F.faults shelf.new) result }
{
    match command {
        Command::Check { fabric, plan } => check(alloc, words, shelf, fabric, plan),
        Command::Route { fabric, engine } => route(alloc, words, shelf, fabric, engine),
        Command::Certify { fabric, plan } => certify(alloc, words, shelf, fabric, plan),
        Command::Convert { fabric, plan } => convert(alloc, words, shelf, fabric, plan),
        Command::Repair {
            fabric,
            plan,
            failed,
            lanes,
        } => repair(alloc, words, shelf, fabric, plan, failed, lanes),
        Command::Cut { fabric, failed } => cut(alloc, words, shelf, fabric, failed),
        Command::Show {
            fabric,
            plan,
            from,
            to,
        } => show(alloc, words, shelf, fabric, plan, from, to),
        Command::Load { fabric, plan } => load(alloc, words, shelf, fabric, plan),
        Command::Gen { recipe } => generate(alloc, recipe),
        Command::Demo { recipe, engine } => demo(alloc, recipe, engine),
        Command::Transit { fabric, old, new } => transit(alloc, words, shelf, fabric, old, new),
        Command::Drain { fabric, plan } => drain(alloc, words, shelf, fabric, plan),
        Command::Mcast { fabric, groups } => mcast(alloc, words, shelf, fabric, groups),
        Command::Spread {
            fabric,
            groups,
            group,
            from,
        } => spread(alloc, words, shelf, fabric, groups, group, from),
        Command::Sweep {
            what,
            fabric,
            plan,
            lanes,
        } => sweep(alloc, words, shelf, what, fabric, plan, lanes),
        Command::Export { part, fabric, plan } => export(alloc, words, shelf, part, fabric, plan),
        Command::Replies { fabric, plan } => replies(alloc, words, shelf, fabric, plan),
    }
}

/// Tells that a file can't be read.
fn put_unread<E: Sink>(alloc: Global, name: &str, err: &mut E) -> u8
    ensures { PutsUnread name.now (record { told_before = E.told err.old; told_now = E.told err.new; faults_before = E.faults err.old; faults_now = E.faults err.new }) result }
{
    let Ok(text) = unread_text(alloc, name) else {
        return 6;
    };
    match err.put(&text) {
        Ok(()) | Err(PutFault::Failed) => 4,
        Err(PutFault::Memory(_)) => 6,
    }
}

/// Does all that the program does: reads the words, without the program's own name, fetches the files that
/// they name, puts the answer to the outputs, and answers the status. The error output gets something only
/// behind the whole text of the output.
///
/// A file's text stands in memory only while it is read, and the text of a plan that is put never does as a
/// whole. Time and memory beyond are those of the calls for reading, checking, certifying and writing.
pub fn run<F: Shelf, O: Sink, E: Sink>(
    alloc: Global,
    words: &[String],
    shelf: &mut F,
    out: &mut O,
    err: &mut E,
) -> u8
    ensures ran { Ran (texts words.now) (record {
      told = F.told shelf.old;
      faults_before = F.faults shelf.old;
      faults_now = F.faults shelf.new;
      out = record { told_before = O.told out.old; told_now = O.told out.new; faults_before = O.faults out.old; faults_now = O.faults out.new };
      err = record { told_before = E.told err.old; told_now = E.told err.new; faults_before = E.faults err.old; faults_now = E.faults err.new };
    }) result }
    // For words that are not in the grammar nothing is fetched.
    ensures unfetched { command_of (texts words.now) ≡ None → shelf.new ≡ shelf.old }
{
    let command = match read_words(alloc, words) {
        Ok(command) => command,
        Err(WordsFault::Words) => return put_answer(out, err, 2, b"", usage()),
        Err(WordsFault::Memory(_)) => return 6,
    };
    match obey(alloc, words, shelf, command) {
        Ok(outcome) => put_outcome(alloc, out, err, outcome),
        Err(Stop::Refused(text)) => put_answer(out, err, 3, b"", &text),
        Err(Stop::Unread(place)) => put_unread(alloc, words[place].as_str(), err),
        Err(Stop::Memory(_)) => 6,
    }
}
