//! How a call ends, as C sees it: a status, and what goes with it.

ghost use Rattle.std.specs.Prelude.{◌≡◌};
ghost use Rattle.da_c.specs.Replies.{unread_reply, verdict, reply_status, detail_of};

use da_files::Unread;

/// What goes with a status. What a status doesn't name is 0.
#[repr(C)]
#[derive(Clone, Copy, Debug, PartialEq, Eq)]
pub struct Detail {
    /// With status 6, which argument isn't in its form, counted from 0 among those that are frames.
    pub argument: u64,
    /// With status 6, the offset from which on it isn't.
    pub at: u64,
    /// With status 13, the number of the check that refuses.
    pub refusal: u64,
    /// With status 0 how many bytes were written, with status 15 how many there are to write.
    pub size: u64,
}

/// How a call ends. Arguments that are frames are numbered from 0.
#[derive(Clone, Copy, Debug, PartialEq, Eq)]
pub enum Reply {
    /// What was asked for is there: so many bytes were written, none by a call that judges.
    Done(u64),
    /// There was no memory.
    NoMemory,
    /// This argument isn't in its form, from this offset on.
    BadForm(u32, u64),
    /// The square has no header.
    NoHeader,
    /// The check of this number refuses.
    Refused(u64),
    /// So many bytes are to be written, and the buffer has fewer.
    Short(u64),
}

/// The reply to an argument that isn't read.
pub(crate) fn unread_reply(argument: u32, why: Unread) -> Reply
    ensures { result ≡ unread_reply argument why }
{
    match why {
        Unread::BadForm(at) => Reply::BadForm(argument, at),
        Unread::NoMemory => Reply::NoMemory,
    }
}

/// The reply to what a check of this number refuses, or none does.
pub(crate) fn verdict(refusal: Option<u64>) -> Reply
    ensures { result ≡ verdict refusal }
{
    match refusal {
        Some(number) => Reply::Refused(number),
        None => Reply::Done(0),
    }
}

/// The number that stands for a reply.
fn status_of(reply: Reply) -> u32
    ensures { result ≡ reply_status reply }
{
    match reply {
        Reply::Done(_) => 0,
        Reply::NoMemory => 5,
        Reply::BadForm(..) => 6,
        Reply::NoHeader => 9,
        Reply::Refused(_) => 13,
        Reply::Short(_) => 15,
    }
}

/// What goes with a reply's number.
fn detail_of(reply: Reply) -> Detail
    ensures { result ≡ detail_of reply }
{
    let none = Detail {
        argument: 0,
        at: 0,
        refusal: 0,
        size: 0,
    };
    match reply {
        Reply::Done(size) => Detail { size, ..none },
        Reply::NoMemory => none,
        Reply::BadForm(argument, at) => Detail {
            argument: u64::from(argument),
            at,
            ..none
        },
        Reply::NoHeader => none,
        Reply::Refused(refusal) => Detail { refusal, ..none },
        Reply::Short(size) => Detail { size, ..none },
    }
}

/// Tells the caller of a reply.
pub(crate) fn tell(reply: Reply, detail: &mut Detail) -> u32
    ensures status { result ≡ reply_status reply }
    ensures detail { detail.new ≡ detail_of reply }
{
    *detail = detail_of(reply);
    status_of(reply)
}
