// Files that are read and sinks that are written: what they hold, and their counts of faults.
ghost use Rattle.std.specs.Prelude.{◌≡◌, ◌⊎◌, ℕ, ◌+◌, ◌<◌, ◌≤◌, List, Bool, true, ◌++◌, length, take, IfOk, OnOk, OnErr, IfSome, IsErrOf};
ghost use Rattle.std.specs.declared.option.Option.{Option};
ghost use Rattle.std.specs.Io.KnownBytes.{append_known};
ghost use Rattle.mq_outside.specs.Outside.{next_count, Rose, GainsFile};

/// Why a file was not read.
#[derive(Clone, Copy, PartialEq, Eq)]
pub enum FileFault {
    /// The device failed, or the name is absent. The count of faults rose.
    Failed,
    /// The file has more bytes than the limit.
    TooLong,
    /// Memory ran out. This isn't a fault of the device.
    Memory,
}

/// Why a sink took nothing.
#[derive(Clone, Copy, PartialEq, Eq)]
pub enum SinkFault {
    /// The device failed. The count of faults rose.
    Failed,
}

/// Files that are read by name.
///
/// An implementation chooses where both counts begin. They never fall, and stop at 2^64 - 1.
pub trait Files {
    /// The contents of the file with a name, if contracts know them.
    ghost told: { Self → List ℕ → Option (List ℕ) };

    /// Whether a name is sure: a read of it leaves `faults` unchanged.
    ghost is_sure: { Self → List ℕ → Bool };

    /// The count of reads.
    ghost reads: { Self → ℕ };

    /// The number of the latest read that failed, or where the count began.
    ghost faults: { Self → ℕ };

    /// Appends the whole file to `into`, if it has at most `limit` bytes.
    ///
    /// Returns `Failed` if the device failed or the name is absent, `TooLong` if the file has more than `limit` bytes,
    /// and `Memory` if `into` could not grow. After an error the bytes in `into` are unchanged.
    fn read(&mut self, name: &str, limit: u64, into: &mut Vec<u8>) -> Result<(), FileFault>
        ensures counted { reads self.new ≡ next_count (reads self.old) }
        ensures later { faults self.old ≤ faults self.new }
        ensures failed { IsErrOf result FileFault.Failed → faults self.new ≡ reads self.new }
        ensures rose { IsErrOf result FileFault.Failed → Rose (faults self.old) (faults self.new) }
        ensures quiet { IsErrOf result FileFault.Failed ⊎ (faults self.new ≡ faults self.old) }
        ensures sure { is_sure self.old name.now ≡ true → faults self.new ≡ faults self.old }

        ensures gains { OnOk result (GainsFile into.old.items into.new.items limit) }
        ensures whole { OnOk result (IfSome (told self.old name.now) (λ bytes. into.new.items ≡ into.old.items ++ bytes)) }
        ensures fits { OnOk result (IfSome (told self.old name.now) (λ bytes. length bytes ≤ limit)) }
        ensures too_long { IsErrOf result FileFault.TooLong → IfSome (told self.old name.now) (λ bytes. limit < length bytes) }
        ensures err { OnErr result (into.new.items ≡ into.old.items) }

        ensures same_told { (n : List ℕ) → told self.new n ≡ told self.old n }
        ensures same_sure { (n : List ℕ) → is_sure self.new n ≡ is_sure self.old n };
}

/// Something that takes bytes, such as an output.
///
/// An implementation chooses where the count of faults begins. It never falls, and stops at 2^64 - 1.
pub trait Sink {
    /// The bytes that were taken, if contracts know them.
    ghost taken: { Self → Option (List ℕ) };

    /// The count of puts that failed.
    ghost faults: { Self → ℕ };

    /// A number of further bytes that are sure: they are taken without a fault.
    ghost sure: { Self → ℕ };

    /// Takes a first part of these bytes, at least one byte unless there are none, and returns how many it took.
    ///
    /// Returns `Failed` if the device failed. It took nothing then.
    fn put(&mut self, bytes: &[u8]) -> Result<usize, SinkFault>
        ensures at_most { IfOk result (λ n. n ≤ length bytes.now) }
        ensures some { IfOk result (λ n. 0 < length bytes.now → 0 < n) }
        ensures taken { IfOk result (λ n. taken self.new ≡ append_known (taken self.old) (take n bytes.now)) }
        ensures spent { IfOk result (λ n. sure self.old ≤ sure self.new + n) }

        ensures untouched { OnErr result (taken self.new ≡ taken self.old) }
        ensures unspent { OnErr result (sure self.old ≤ sure self.new) }

        ensures later { faults self.old ≤ faults self.new }
        ensures rose { OnErr result (Rose (faults self.old) (faults self.new)) }
        ensures quiet { OnOk result (faults self.new ≡ faults self.old) }
        ensures sure { 1 ≤ sure self.old → faults self.new ≡ faults self.old };
}
