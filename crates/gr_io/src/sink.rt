//! Where text is written to.
ghost use Rattle.std.specs.Prelude.{◌≡◌, ℕ, List, Option, [], ◌<◌, ◌≤◌, IfOk, IfErr, OnOk, OnErr, IsOk, length, take};
ghost use Rattle.gr_io.specs.Outside.{appended, Rose};

/// A write that took nothing. The sink has counted it, unless its count stands at its last value.
#[derive(Clone, Copy, Debug, PartialEq, Eq)]
pub struct Failed;

/// A sink for bytes.
///
/// `written` is what it has taken so far, or `None` where it doesn't tell. `faults` counts the
/// failed writes; the count never falls.
pub trait Sink {
    ghost written: { Self → Option (List ℕ) };

    ghost faults: { Self → ℕ };

    /// Takes at least one of the first bytes of a piece, and says how many.
    ///
    /// The piece isn't empty. `Failed` comes only where the count rose in this call or stands at
    /// its last value, and then nothing was taken. Where bytes were taken, the count stays as it
    /// was.
    fn write(&mut self, bytes: &[u8]) -> Result<usize, Failed>
        requires { 0 < length bytes.now }
        ensures count { IfOk result (λ n. (0 < n) × (n ≤ length bytes.now)) }
        ensures taken { IfOk result (λ n. written self.new ≡ appended (written self.old) (take n bytes.now)) }
        ensures nothing { OnErr result (written self.new ≡ written self.old) }
        ensures failed { OnErr result (Rose (faults self.old) (faults self.new)) }
        ensures kept { OnOk result (faults self.new ≡ faults self.old) }
        ensures never_falls { faults self.old ≤ faults self.new };
}

/// A text that wasn't written whole.
#[derive(Clone, Copy, Debug, PartialEq, Eq)]
pub struct WriteFault {
    /// How many of the first bytes were written.
    pub written: usize,
}

/// Writes all the bytes, in as many pieces as the sink takes.
///
/// `WriteFault` comes only where the sink's count rose in this call or stands at its last value.
/// After a fault nothing more is written: where all was written, the count stays as it was. For
/// no bytes the sink isn't called. It takes no memory.
pub fn write_all_of<K: Sink>(sink: &mut K, bytes: &[u8]) -> Result<(), WriteFault>
    ensures ok { OnOk result (K.written sink.new ≡ appended (K.written sink.old) bytes.now) }
    ensures part { IfErr result (λ e. e.written < length bytes.now) }
    ensures err { IfErr result (λ e. K.written sink.new ≡ appended (K.written sink.old) (take e.written bytes.now)) }
    ensures kept { OnOk result (K.faults sink.new ≡ K.faults sink.old) }
    ensures cause { OnErr result (Rose (K.faults sink.old) (K.faults sink.new)) }
    ensures never_falls { K.faults sink.old ≤ K.faults sink.new }
    ensures empty { bytes.now ≡ [] → sink.new ≡ sink.old }
{
    let mut written = 0;
    while written < bytes.len() {
        match sink.write(&bytes[written..]) {
            Ok(taken) => written += taken,
            Err(Failed) => return Err(WriteFault { written }),
        }
    }
    Ok(())
}
