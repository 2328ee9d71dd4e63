//! Running a command.

ghost use Rattle.std.specs.Prelude.{◌≡◌, ◌≢◌};
ghost use Rattle.da_words.specs.declared.command.Command.TheVariants as CommandOf;
ghost use Rattle.da_files.specs.Contents.{contents_of};
ghost use Rattle.da_status.specs.declared.status.Status.TheVariants.{NoMemory};
ghost use Rattle.da_words.specs.Commands.{IsRunnable};
ghost use Rattle.da_commands.specs.Meaning.{Meaning, TakesFirst};
ghost use Rattle.da_status.specs.Outcome.{Ends};

use crate::show::Form;
use crate::{cells, demo, help, net, show};
use da_exchanging::{export, import};
use da_following::follow;
use da_io::Sink;
use da_judging::{check, compact, light, root, verify};
use da_serving::{
    blobs, build, commit, find, header, namespace, prove, sample, transactions, wanted,
};
use da_status::Status;
use da_words::Command;
use std::alloc::Global;

/// Runs a command over the contents of its files, which stand in the order of the words that name them.
/// `repair` isn't one of these: its second file is streamed.
///
/// The files are judged in their order, then what they ask for; then comes the output. A file that isn't
/// there is as one that is empty. Out of memory may be answered at any step.
pub fn execute<O: Sink>(alloc: Global, command: Command, files: &[Vec<u8>], out: &mut O) -> Status
    requires runnable { IsRunnable command }
    requires gathered { command ≢ CommandOf.Repair }
    ensures ends { Ends (Meaning command (contents_of files.now)) (O.taken out.old) (O.taken out.new)
        (O.faults out.old) (O.faults out.new) (out.new ≡ out.old) result }
    ensures late { TakesFirst command → result ≡ NoMemory → out.new ≡ out.old }
{
    match command {
        Command::Check => check::execute(alloc, files, out),
        Command::Build => build::execute(alloc, files, out),
        Command::Header => header::execute(alloc, files, out),
        Command::Sample => sample::execute(alloc, files, out),
        Command::Namespace => namespace::execute(alloc, files, out),
        Command::Verify => verify::execute(alloc, files, out),
        Command::Compact => compact::execute(alloc, files, out),
        Command::Repair => unreachable!(),
        Command::Light(key, count) => light::execute(alloc, files, &key, count, out),
        Command::LightBy(count) => light::execute_by(alloc, files, count, out),
        Command::Net => net::execute(alloc, files, out),
        Command::Show => show::execute(alloc, Form::Text, files, out),
        Command::Json => show::execute(alloc, Form::Json, files, out),
        Command::Demo(number, k) => demo::execute(alloc, number, k, out),
        Command::VerifyCommitment(commitment) => {
            verify::execute_commitment(alloc, files, &commitment, out)
        }
        Command::VerifyFor => verify::execute_for(alloc, files, out),
        Command::Root => root::root(alloc, files, out),
        Command::RootIs(root) => root::root_is(alloc, files, &root, out),
        Command::Wanted(axis) => wanted::execute(alloc, files, axis, out),
        Command::Cells(key, count, axis) => cells::execute(alloc, files, &key, count, axis, out),
        Command::CellsBy(count, axis) => cells::execute_by(alloc, files, count, axis, out),
        Command::Blobs => blobs::execute(alloc, files, out),
        Command::Transactions => transactions::execute(alloc, files, out),
        Command::Find(commitment) => find::execute(alloc, files, &commitment, out),
        Command::Commit => commit::execute(alloc, files, out),
        Command::Prove => prove::execute(alloc, files, out),
        Command::ProveRange(start, count) => prove::range(alloc, files, start, count, out),
        Command::Follow => follow::execute(alloc, files, out),
        Command::Import(form) => import(alloc, form, files, out),
        Command::Export(form) => export(alloc, form, files, out),
        Command::Help => help::help(out),
        Command::Version => help::version(out),
    }
}
