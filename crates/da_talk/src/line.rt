//! Both ends of a talk as one value, so that what is heard and what is said have one order.

ghost use Rattle.std.specs.Prelude.{◌≡◌, ◌≤◌, ℕ, List};
ghost use Rattle.std.specs.declared.option.Option.{Option};
ghost use Rattle.std.specs.Io.{ReadsAtMost};
ghost use Rattle.da_io.specs.declared.inputs.LastCall.{LastCall};
ghost use Rattle.da_io.specs.Faults.{max_count, CountsFault, GivesCounted, read_end};
ghost use Rattle.da_talk.specs.Events.{Event, Hears, TakesBytes, GivesBytes};

use da_io::{ReadFailed, WriteFailed};

/// One end of a talk: what hears bytes and says bytes.
pub trait Line {
    /// What happened so far, in its order, where that is told. What isn't told once is never told again.
    ghost events: { Self → Option (List Event) };

    /// The bytes that are still to be heard, where they are told.
    ghost rest: { Self → Option (List ℕ) };

    /// The bytes that were said so far, where they are told.
    ghost taken: { Self → Option (List ℕ) };

    /// How many bytes were heard. The count stops at 2^64 - 1.
    ghost given: { Self → ℕ };

    /// How the last call of `hear` ended.
    ghost ended: { Self → LastCall };

    /// How many calls of `hear` have failed. The count stops at 2^64 - 1.
    ghost read_faults: { Self → ℕ };

    /// How many calls of `say` have failed. The count stops at 2^64 - 1.
    ghost write_faults: { Self → ℕ };

    /// What calls leave as it is, of a line before and after them.
    ghost stays: { Self → Self → Type 0 };

    /// Waits for bytes, moves them to the front of `buf`, and gives their number.
    ///
    /// 0 for a `buf` that isn't empty is the end. A failure gives no bytes.
    fn hear(&mut self, buf: &mut [u8]) -> Result<usize, ReadFailed>
        ensures bound { ReadsAtMost result buf.new }
        ensures events { Hears (events self.old) (events self.new) result buf.new }
        ensures rest { TakesBytes (rest self.old) (rest self.new) (taken self.old) (taken self.new) result
            buf.new }
        ensures given { GivesCounted (given self.old) (given self.new) result }
        ensures ended { ended self.new ≡ read_end result }
        ensures read_faults { CountsFault (read_faults self.old) (read_faults self.new) result }
        ensures write_faults { write_faults self.new ≡ write_faults self.old }
        ensures stays { stays self.old self.new };

    /// Says all of these bytes: when it answers, none of them is held back.
    ///
    /// After a failure a proper prefix was said.
    fn say(&mut self, bytes: &[u8]) -> Result<(), WriteFailed>
        ensures said { GivesBytes (events self.old) (events self.new) (rest self.old) (rest self.new)
            (taken self.old) (taken self.new) bytes.now result }
        ensures rest { rest self.new ≡ rest self.old }
        ensures given { given self.new ≡ given self.old }
        ensures ended { ended self.new ≡ ended self.old }
        ensures read_faults { read_faults self.new ≡ read_faults self.old }
        ensures write_faults { CountsFault (write_faults self.old) (write_faults self.new) result }
        ensures stays { stays self.old self.new };

    /// Counts keep within their end.
    ghost counted: { (line : Self) → (given line ≤ max_count) × (read_faults line ≤ max_count)
        × (write_faults line ≤ max_count) };

    /// What each call leaves, any number of calls leaves.
    ghost stays_none: { (line : Self) → stays line line };

    ghost stays_on: { (a b c : Self) → stays a b → stays b c → stays a c };
}
