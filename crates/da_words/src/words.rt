//! Words, and the command that they are.

ghost use Rattle.std.specs.Prelude.{◌≡◌, ◌<◌, [], get_or, length, map, IfSome};
ghost use Rattle.da_words.specs.Commands.{IsRunnable};
ghost use Rattle.da_words.specs.Values.{is_command};
ghost use Rattle.da_words.specs.Words.{words_of, light_by_call, light_call, demo_call, verify_call, root_call, find_call, wanted_call, cells_by_call, cells_of_key, cells_call, prove_call, import_call, export_call, call_in, file_call, value_call, form_call, any_call, words_before, last_file, file_words, plain_count, files_named, call_names, reads_once, call_of, HasFiles};

use crate::command::Command;
use crate::forms::{ExportForm, ImportForm, export_form, import_files, import_form};
use crate::values::{axis_in, is_key_name, key_in, key_name, number_in, width_in};
use da_io::is_standard_input;

/// A command, and how many words name its files. These come first behind its own, or behind FORM.
#[derive(Clone, Copy)]
pub struct Call {
    pub command: Command,
    pub files: usize,
}

/// Whether these are the word of a command and so many words after it.
fn is_command(words: &[String], name: &str, count: usize) -> bool
    ensures { result ≡ is_command (words_of words.now) name.now count }
{
    match words.split_first() {
        Some((word, rest)) => word.as_str() == name && rest.len() == count,
        None => false,
    }
}

/// The call of `light` whose KEY names a file, and whose COUNT is this word.
fn light_by_call(count: &str) -> Option<Call>
    ensures value { result ≡ light_by_call count.now }
    ensures files { IfSome result (λ call. last_file call < 5) }
    ensures runnable { IfSome result (λ call. IsRunnable call.command) }
    ensures own { IfSome result (λ call. HasFiles call.command call.files) }
{
    let count = number_in(count, u64::from(u32::MAX))?;
    Some(Call {
        command: Command::LightBy(count as u32),
        files: 3,
    })
}

/// The call of `light` whose KEY and COUNT are these words.
fn light_call(key: &str, count: &str) -> Option<Call>
    ensures value { result ≡ light_call key.now count.now }
    ensures files { IfSome result (λ call. last_file call < 5) }
    ensures runnable { IfSome result (λ call. IsRunnable call.command) }
    ensures own { IfSome result (λ call. HasFiles call.command call.files) }
{
    if is_key_name(key) {
        return light_by_call(count);
    }
    let key = key_in(key)?;
    let count = number_in(count, u64::from(u32::MAX))?;
    Some(Call {
        command: Command::Light(key, count as u32),
        files: 2,
    })
}

/// The call of `demo` whose NUMBER and WIDTH are these words.
fn demo_call(number: &str, width: &str) -> Option<Call>
    ensures value { result ≡ demo_call number.now width.now }
    ensures files { IfSome result (λ call. last_file call < 3) }
    ensures runnable { IfSome result (λ call. IsRunnable call.command) }
    ensures own { IfSome result (λ call. HasFiles call.command call.files) }
{
    let number = number_in(number, u64::MAX)?;
    let k = width_in(width)?;
    Some(Call {
        command: Command::Demo(number, k),
        files: 0,
    })
}

/// The call of `verify` of a third word: a COMMITMENT where it is 64 hexadecimal digits, else REQUEST.
fn verify_call(third: &str) -> Call
    ensures value { result ≡ verify_call third.now }
    ensures files { last_file result < 4 }
    ensures runnable { IsRunnable result.command }
    ensures own { HasFiles result.command result.files }
{
    match key_in(third) {
        Some(commitment) => Call {
            command: Command::VerifyCommitment(commitment),
            files: 2,
        },
        None => Call {
            command: Command::VerifyFor,
            files: 3,
        },
    }
}

/// The call of `root` whose ROOT is this word.
fn root_call(root: &str) -> Option<Call>
    ensures value { result ≡ root_call root.now }
    ensures files { IfSome result (λ call. last_file call < 3) }
    ensures runnable { IfSome result (λ call. IsRunnable call.command) }
    ensures own { IfSome result (λ call. HasFiles call.command call.files) }
{
    Some(Call {
        command: Command::RootIs(key_in(root)?),
        files: 1,
    })
}

/// The call of `find` whose COMMITMENT is this word.
fn find_call(commitment: &str) -> Option<Call>
    ensures value { result ≡ find_call commitment.now }
    ensures files { IfSome result (λ call. last_file call < 3) }
    ensures runnable { IfSome result (λ call. IsRunnable call.command) }
    ensures own { IfSome result (λ call. HasFiles call.command call.files) }
{
    Some(Call {
        command: Command::Find(key_in(commitment)?),
        files: 1,
    })
}

/// The call of `wanted` whose AXIS is this word.
fn wanted_call(axis: &str) -> Option<Call>
    ensures value { result ≡ wanted_call axis.now }
    ensures files { IfSome result (λ call. last_file call < 3) }
    ensures runnable { IfSome result (λ call. IsRunnable call.command) }
    ensures own { IfSome result (λ call. HasFiles call.command call.files) }
{
    Some(Call {
        command: Command::Wanted(axis_in(axis)?),
        files: 1,
    })
}

/// The call of `cells` whose KEY names a file, and whose COUNT and AXIS are these words.
fn cells_by_call(count: &str, axis: &str) -> Option<Call>
    ensures value { result ≡ cells_by_call count.now axis.now }
    ensures files { IfSome result (λ call. last_file call < 5) }
    ensures runnable { IfSome result (λ call. IsRunnable call.command) }
    ensures own { IfSome result (λ call. HasFiles call.command call.files) }
{
    let count = number_in(count, u64::from(u32::MAX))?;
    let axis = axis_in(axis)?;
    Some(Call {
        command: Command::CellsBy(count as u32, axis),
        files: 2,
    })
}

/// The call of `cells` with this KEY, whose COUNT and AXIS are these words.
fn cells_of_key(key: [u8; 32], count: &str, axis: &str) -> Option<Call>
    ensures value { result ≡ cells_of_key key count.now axis.now }
    ensures files { IfSome result (λ call. last_file call < 5) }
    ensures runnable { IfSome result (λ call. IsRunnable call.command) }
    ensures own { IfSome result (λ call. HasFiles call.command call.files) }
{
    let count = number_in(count, u64::from(u32::MAX))?;
    let axis = axis_in(axis)?;
    Some(Call {
        command: Command::Cells(key, count as u32, axis),
        files: 1,
    })
}

/// The call of `cells` whose KEY, COUNT and AXIS are these words.
fn cells_call(key: &str, count: &str, axis: &str) -> Option<Call>
    ensures value { result ≡ cells_call key.now count.now axis.now }
    ensures files { IfSome result (λ call. last_file call < 5) }
    ensures runnable { IfSome result (λ call. IsRunnable call.command) }
    ensures own { IfSome result (λ call. HasFiles call.command call.files) }
{
    if is_key_name(key) {
        return cells_by_call(count, axis);
    }
    cells_of_key(key_in(key)?, count, axis)
}

/// The call of `prove` whose START and COUNT are these words.
fn prove_call(start: &str, count: &str) -> Option<Call>
    ensures value { result ≡ prove_call start.now count.now }
    ensures files { IfSome result (λ call. last_file call < 3) }
    ensures runnable { IfSome result (λ call. IsRunnable call.command) }
    ensures own { IfSome result (λ call. HasFiles call.command call.files) }
{
    let start = number_in(start, u64::from(u32::MAX))?;
    let count = number_in(count, u64::from(u32::MAX))?;
    Some(Call {
        command: Command::ProveRange(start as u32, count as u32),
        files: 1,
    })
}

/// The commands whose words after their own all name files: the word of each, how many files it has, and
/// the command.
const FILE_COMMANDS: [(&str, usize, Command); 19] = [
    ("check", 2, Command::Check),
    ("build", 1, Command::Build),
    ("header", 1, Command::Header),
    ("sample", 2, Command::Sample),
    ("namespace", 2, Command::Namespace),
    ("verify", 2, Command::Verify),
    ("compact", 2, Command::Compact),
    ("repair", 2, Command::Repair),
    ("net", 3, Command::Net),
    ("show", 1, Command::Show),
    ("json", 1, Command::Json),
    ("root", 1, Command::Root),
    ("blobs", 1, Command::Blobs),
    ("transactions", 1, Command::Transactions),
    ("commit", 1, Command::Commit),
    ("prove", 2, Command::Prove),
    ("follow", 2, Command::Follow),
    ("help", 0, Command::Help),
    ("version", 0, Command::Version),
];

/// The call of the row that these words are.
fn call_in(rows: &[(&str, usize, Command)], words: &[String]) -> Option<Call>
    ensures { result ≡ call_in (map (λ row. (row.0.now, row.1, row.2)) rows.now)
        (words_of words.now) }
{
    for row in rows {
        if is_command(words, row.0, row.1) {
            return Some(Call {
                command: row.2,
                files: row.1,
            });
        }
    }
    None
}

/// The command of these words, among those whose words after their own all name files.
fn file_call(words: &[String]) -> Option<Call>
    ensures value { result ≡ file_call (words_of words.now) }
    ensures files { IfSome result (λ call. last_file call < length words.now) }
    ensures few { IfSome result (λ call. call.files < 16) }
    ensures runnable { IfSome result (λ call. IsRunnable call.command) }
    ensures own { IfSome result (λ call. HasFiles call.command call.files) }
{
    call_in(&FILE_COMMANDS, words)
}

/// The command of these words, among those with values among their words.
fn value_call(words: &[String]) -> Option<Call>
    ensures value { result ≡ value_call (words_of words.now) }
    ensures files { IfSome result (λ call. last_file call < length words.now) }
    ensures few { IfSome result (λ call. call.files < 16) }
    ensures runnable { IfSome result (λ call. IsRunnable call.command) }
    ensures own { IfSome result (λ call. HasFiles call.command call.files) }
{
    let (word, rest) = words.split_first()?;
    match (word.as_str(), rest) {
        ("light", [_, _, key, count]) => light_call(key, count),
        ("demo", [number, width]) => demo_call(number, width),
        ("root", [_, root]) => root_call(root),
        ("find", [_, commitment]) => find_call(commitment),
        ("wanted", [_, axis]) => wanted_call(axis),
        ("prove", [_, start, count]) => prove_call(start, count),
        ("verify", [_, _, third]) => Some(verify_call(third)),
        ("cells", [_, key, count, axis]) => cells_call(key, count, axis),
        _ => None,
    }
}

/// The call of `import` with a form.
fn import_call(form: ImportForm) -> Call
    ensures value { result ≡ import_call form }
    ensures few { result.files < 16 }
    ensures runnable { IsRunnable result.command }
    ensures own { HasFiles result.command result.files }
{
    Call {
        command: Command::Import(form),
        files: import_files(form),
    }
}

/// The call of `export` with a form.
fn export_call(form: ExportForm) -> Call
    ensures value { result ≡ export_call form }
    ensures runnable { IsRunnable result.command }
    ensures own { HasFiles result.command result.files }
{
    Call {
        command: Command::Export(form),
        files: 1,
    }
}

/// The command of these words, where it is `import` or `export` with a form.
fn form_call(words: &[String]) -> Option<Call>
    ensures value { result ≡ form_call (words_of words.now) }
    ensures files { IfSome result (λ call. last_file call < length words.now) }
    ensures few { IfSome result (λ call. call.files < 16) }
    ensures runnable { IfSome result (λ call. IsRunnable call.command) }
    ensures own { IfSome result (λ call. HasFiles call.command call.files) }
{
    let (word, rest) = words.split_first()?;
    match word.as_str() {
        "import" => Some(import_call(import_form(rest)?)),
        "export" => Some(export_call(export_form(rest)?)),
        _ => None,
    }
}

/// The command of these words, whatever its files are.
fn any_call(words: &[String]) -> Option<Call>
    ensures value { result ≡ any_call (words_of words.now) }
    ensures files { IfSome result (λ call. last_file call < length words.now) }
    ensures few { IfSome result (λ call. call.files < 16) }
    ensures runnable { IfSome result (λ call. IsRunnable call.command) }
    ensures own { IfSome result (λ call. HasFiles call.command call.files) }
{
    if let Some(call) = file_call(words) {
        return Some(call);
    }
    match value_call(words) {
        Some(call) => Some(call),
        None => form_call(words),
    }
}

/// How many words stand before those that name a command's files: its own, and FORM of `import` and `export`.
fn words_before(command: Command) -> usize
    ensures value { result ≡ words_before command }
    ensures few { result < 3 }
{
    match command {
        Command::Import(_) | Command::Export(_) => 2,
        _ => 1,
    }
}

/// The words that name the files of a call.
pub fn file_words(words: &[String], call: Call) -> &[String]
    requires few { call.files < 16 }
    requires files { last_file call < length words.now }
    ensures value { words_of result.now ≡ file_words call.command call.files (words_of words.now) }
    ensures count { length result.now ≡ call.files }
{
    let first = words_before(call.command);
    &words[first..first + call.files]
}

/// How many of the words that name a command's files, `files` in all, are names as they stand;
/// those behind them stand in the place of KEY.
pub fn plain_count(command: Command, files: usize) -> usize
    ensures { result ≡ plain_count command files }
{
    match command {
        Command::LightBy(_) => 2,
        Command::CellsBy(..) => 1,
        _ => files,
    }
}

/// The name that word `i` names, where the first `plain` words are names as they stand, and the
/// others stand in the place of KEY.
pub fn name_at(words: &[String], plain: usize, i: usize) -> &str
    requires { i < length words.now }
    ensures { result.now ≡ get_or (files_named plain (words_of words.now)) i [] }
{
    let word = words[i].as_str();
    if i < plain { word } else { key_name(word) }
}

/// Whether at most one of the names that these words name is the standard input.
fn reads_once(words: &[String], plain: usize) -> bool
    ensures { result ≡ reads_once (files_named plain (words_of words.now)) }
{
    let mut count = 0usize;
    for i in 0..words.len() {
        if is_standard_input(name_at(words, plain, i)) {
            count += 1;
        }
    }
    count <= 1
}

/// Whether a call of these words reads the standard input at most once.
fn is_once_only(words: &[String], call: Call) -> bool
    requires few { call.files < 16 }
    requires files { last_file call < length words.now }
    ensures { result ≡ reads_once (call_names call (words_of words.now)) }
{
    reads_once(
        file_words(words, call),
        plain_count(call.command, call.files),
    )
}

/// The command of these words; none where two of them are the standard input, which can be read but
/// once.
pub fn call_of(words: &[String]) -> Option<Call>
    ensures value { result ≡ call_of (words_of words.now) }
    ensures files { IfSome result (λ call. last_file call < length words.now) }
    ensures few { IfSome result (λ call. call.files < 16) }
    ensures runnable { IfSome result (λ call. IsRunnable call.command) }
    ensures own { IfSome result (λ call. HasFiles call.command call.files) }
{
    let call = any_call(words)?;
    if is_once_only(words, call) {
        Some(call)
    } else {
        None
    }
}
