//! show FILE, json FILE: the frames of a file as text, or as JSON.

ghost use Rattle.std.specs.Prelude.{◌≡◌, ◌<◌, [], ◌++◌, length, Some, IfOk, OnOk, OnErr, IfSome, MatchOption, if◌then◌else◌};
ghost use Rattle.std.specs.Result.{is_ok};
ghost use Rattle.std.specs.String.{string_bytes};
ghost use Rattle.da_wire.specs.declared.frames.Frame.{Frame as FrameOf};
ghost use Rattle.da_wire.specs.Briefs.{brief_of};
ghost use Rattle.da_wire.specs.Values.{values_of};
ghost use Rattle.da_files.specs.Contents.{contents_of};
ghost use Rattle.da_commands.specs.Show.{all_kinds, shown_as, shown_line, all_shown, ShowsFrames, show_judged, shown_file};
ghost use Rattle.da_status.specs.declared.status.Status.TheVariants.{WriteFault};
ghost use Rattle.da_status.specs.Judging.{Judged};
ghost use Rattle.da_status.specs.Outcome.{Ends};

use da_files::file;
use da_io::{LineRoom, Sink, WriteFailed};
use da_status::Status;
use da_wire::{Brief, Frame, bad_value, next_brief, next_value};
use namespace_id::NoMemory;
use std::alloc::Global;

/// The place of the file among the words that name files.
const FILE: u32 = 0;

/// The kinds of all frames that there are.
const KINDS: &[u8] = b"HSMNBKXQPVCRTEA";

/// In which form a frame is shown.
#[derive(Clone, Copy)]
pub(crate) enum Form {
    Text,
    Json,
}

/// What is shown of a frame, ended by a line feed.
fn line(alloc: Global, form: Form, frame: &Frame) -> Result<String, NoMemory>
    ensures { IfOk result (λ text. string_bytes text ≡ shown_line (shown_as form) frame.now) }
{
    let mut text = match form {
        Form::Text => da_show::show(alloc, frame)?,
        Form::Json => da_show::show_json(alloc, frame)?,
    };
    match text.push('\n') {
        Ok(()) => Ok(text),
        Err(_) => Err(NoMemory),
    }
}

/// Appends what is shown of the value that this is brief of.
fn put_shown(alloc: Global, form: Form, text: &mut String, brief: &Brief) -> Result<(), NoMemory>
    ensures { (value : FrameOf) → brief_of value ≡ Some brief.now →
        OnOk result (string_bytes text.new ≡ string_bytes text.old ++ shown_as form value) }
{
    match form {
        Form::Text => da_show::put_brief(alloc, text, brief),
        Form::Json => da_show::put_brief_json(alloc, text, brief),
    }
}

/// Appends what is shown of the value that this is brief of, ended by a line feed.
fn put_line(alloc: Global, form: Form, text: &mut String, brief: &Brief) -> Result<(), NoMemory>
    ensures { (value : FrameOf) → brief_of value ≡ Some brief.now →
        OnOk result (string_bytes text.new
        ≡ string_bytes text.old ++ shown_line (shown_as form) value) }
{
    put_shown(alloc, form, text, brief)?;
    match text.push_str("\n") {
        Ok(()) => Ok(()),
        Err(_) => Err(NoMemory),
    }
}

/// Makes the text that of the line of the frame at the front of bytes, whose value is made for it,
/// and gives the bytes after the frame; none where no frame is left.
fn made_line<'a>(
    alloc: Global,
    form: Form,
    bytes: &'a [u8],
    text: &mut String,
) -> Result<Option<&'a [u8]>, NoMemory>
    ensures line { IfOk result (λ found. MatchOption found (values_of all_kinds bytes.now ≡ [])
        (λ more. all_shown (shown_as form) bytes.now
        ≡ string_bytes text.new ++ all_shown (shown_as form) more.now)) }
    ensures memory { OnErr result (0 < length (all_shown (shown_as form) bytes.now)) }
    ensures shorter { IfOk result (λ found.
        IfSome found (λ more. length more.now < length bytes.now)) }
{
    *text = String::new(alloc);
    let Ok(found) = next_value(alloc, bytes, KINDS) else {
        return Err(NoMemory);
    };
    let Some((frame, more)) = found else {
        return Ok(None);
    };
    let line = line(alloc, form, &frame);
    drop(frame);
    let Ok(shown) = line else {
        return Err(NoMemory);
    };
    *text = shown;
    Ok(Some(more))
}

/// Makes the text that of the line of the frame at the front of bytes, and gives the bytes after the
/// frame; none where no frame is left. Of the kinds whose frames may be short what is shown alone is
/// read, and the memory of the text serves again.
fn next_line<'a>(
    alloc: Global,
    form: Form,
    bytes: &'a [u8],
    text: &mut String,
) -> Result<Option<&'a [u8]>, NoMemory>
    ensures line { IfOk result (λ found. MatchOption found (values_of all_kinds bytes.now ≡ [])
        (λ more. all_shown (shown_as form) bytes.now
        ≡ string_bytes text.new ++ all_shown (shown_as form) more.now)) }
    ensures memory { OnErr result (0 < length (all_shown (shown_as form) bytes.now)) }
    ensures shorter { IfOk result (λ found.
        IfSome found (λ more. length more.now < length bytes.now)) }
{
    let Ok(found) = next_brief(alloc, bytes) else {
        return Err(NoMemory);
    };
    let Some((brief, more)) = found else {
        return made_line(alloc, form, bytes, text);
    };
    text.clear();
    let put = put_line(alloc, form, text, &brief);
    drop(brief);
    let Ok(()) = put else {
        return Err(NoMemory);
    };
    Ok(Some(more))
}

/// The status of a run that ends with the last writes: this one where they did not fail.
fn after(wrote: Result<(), WriteFailed>, status: Status) -> Status
    ensures { result ≡ if is_ok wrote then status else WriteFault }
{
    match wrote {
        Ok(()) => status,
        Err(_) => Status::WriteFault,
    }
}

/// Writes what is shown of each frame, as many lines at a time as the room holds. The bytes are a
/// list of frames. Where memory runs out, what was shown before is written.
fn list<O: Sink>(alloc: Global, form: Form, frames: &[u8], out: &mut O) -> Status
    ensures { Ends (ShowsFrames (shown_as form) (values_of all_kinds frames.now)) (O.taken out.old)
        (O.taken out.new) (O.faults out.old) (O.faults out.new) (out.new ≡ out.old) result }
{
    let mut room = LineRoom::new();
    let mut text = String::new(alloc);
    let mut rest = frames;
    loop {
        let Ok(found) = next_line(alloc, form, rest, &mut text) else {
            return after(room.flush(out), Status::NoMemory);
        };
        let Some(more) = found else {
            return after(room.flush(out), Status::Done);
        };
        let Ok(()) = room.add(text.as_bytes(), out) else {
            return Status::WriteFault;
        };
        rest = more;
    }
}

/// Shows the frames in FILE, which is judged before the first line.
pub(crate) fn execute<O: Sink>(alloc: Global, form: Form, files: &[Vec<u8>], out: &mut O) -> Status
    ensures { Ends (Judged (show_judged (contents_of files.now))
        (ShowsFrames (shown_as form) (values_of all_kinds (shown_file (contents_of files.now)))))
        (O.taken out.old) (O.taken out.new) (O.faults out.old) (O.faults out.new)
        (out.new ≡ out.old) result }
{
    let frames = file(files, FILE);
    if let Some(at) = bad_value(frames, KINDS) {
        return Status::BadInput(FILE, at);
    }
    list(alloc, form, frames, out)
}
