//! Files by their names, which hand out sources, sinks and disks and take them back.

ghost use Rattle.std.specs.Prelude.{◌≡◌, ◌≢◌, ◌<◌, true, false};
ghost use Rattle.ctl_io.specs.Faults.{count_after, is_faulty};
ghost use Rattle.ctl_io.specs.Sink.{IsUnwritten};
ghost use Rattle.ctl_io.specs.Held.{ShowsHeld, MayBeMissing, Stays, AllStay, OtherOpeningsStay};
ghost use Rattle.ctl_io.specs.Held.{AllStayBut, AfterFound, IsNamed};
ghost use Rattle.ctl_io.specs.Custody.{TakesSource, TakesSink, TakesDisk};
ghost use Rattle.ctl_io.specs.Custody.{source_lent, sink_lent, disk_lent};
ghost use Rattle.ctl_io.specs.Files.{FilesData, IfFound, IfMade, IsZeroed};
ghost use Rattle.ctl_io.specs.Files.{find_failed, make_failed};

use crate::{Disk, Sink, Source};

/// What the files answer where a source or a disk is asked for.
pub enum Found<S> {
    Here(S),
    /// The files have no such name.
    Missing,
    Failed,
}

/// What the files answer where a sink is asked for.
pub enum Made<K> {
    Here(K),
    Failed,
}

/// Files by their names. What they hand out is given back to them.
pub trait Files {
    type S: Source;

    type K: Sink;

    type D: Disk;

    /// What they show: what they hold of a name, as a source and as a disk, for each of its openings from now; what they
    /// handed out and took back; and how often a call failed, or an object with faults was given back. Only the files' own
    /// calls raise that.
    ghost shows: { Self → FilesData };

    /// Opens the file of this name for reading.
    fn source(&mut self, name: &str) -> Found<Self::S>
        ensures left { IfFound result (λ source.
            ShowsHeld ((shows self.old).held name.now 0) (Self.S.left source)) }
        ensures named { IfFound result (λ source. IsNamed name.now (Self.S.name source)) }
        ensures new { IfFound result (λ source. Self.S.faults source ≡ 0) }
        ensures missing { result ≡ Found.Missing →
            MayBeMissing ((shows self.old).held name.now 0) }
        ensures next { AfterFound result
            ((shows self.old).held name.now) ((shows self.new).held name.now) }
        ensures others { OtherOpeningsStay name.now
            (shows self.old).held (shows self.new).held }
        ensures disks { AllStay (shows self.old).disks (shows self.new).disks }
        ensures lent { (shows self.new).custody
            ≡ source_lent result (shows self.old).custody }
        ensures count { (shows self.new).faults
            ≡ count_after (find_failed result) (shows self.old).faults };

    /// Makes the file of this name anew, for writing.
    fn sink(&mut self, name: &str) -> Made<Self::K>
        ensures empty { IfMade result (λ sink. IsUnwritten (Self.K.written sink)) }
        ensures named { IfMade result (λ sink. IsNamed name.now (Self.K.name sink)) }
        ensures new { IfMade result (λ sink. Self.K.faults sink ≡ 0) }
        ensures others { OtherOpeningsStay name.now
            (shows self.old).held (shows self.new).held }
        ensures disks { OtherOpeningsStay name.now
            (shows self.old).disks (shows self.new).disks }
        ensures lent { (shows self.new).custody
            ≡ sink_lent result (shows self.old).custody }
        ensures count { (shows self.new).faults
            ≡ count_after (make_failed result) (shows self.old).faults };

    /// Opens the file of this name as a disk of its own size. With `make` the file is made anew, of `size` zero bytes,
    /// whatever it was.
    fn disk(&mut self, name: &str, size: u64, make: bool) -> Found<Self::D>
        ensures held { make ≡ false → IfFound result (λ disk.
            ShowsHeld ((shows self.old).disks name.now 0) (Self.D.past disk)) }
        ensures zeroed { make ≡ true → IfFound result (λ disk.
            IsZeroed size (Self.D.contents disk)) }
        ensures size { make ≡ true → IfFound result (λ disk. Self.D.size disk ≡ size) }
        ensures named { IfFound result (λ disk. IsNamed name.now (Self.D.name disk)) }
        ensures new { IfFound result (λ disk. Self.D.faults disk ≡ 0) }
        ensures found { make ≡ true → result ≢ Found.Missing }
        ensures missing { result ≡ Found.Missing →
            MayBeMissing ((shows self.old).disks name.now 0) }
        ensures next { make ≡ false → AfterFound result
            ((shows self.old).disks name.now) ((shows self.new).disks name.now) }
        ensures same { make ≡ false → Stays
            ((shows self.old).held name.now) ((shows self.new).held name.now) }
        ensures others { OtherOpeningsStay name.now
            (shows self.old).held (shows self.new).held }
        ensures disks { OtherOpeningsStay name.now
            (shows self.old).disks (shows self.new).disks }
        ensures lent { (shows self.new).custody
            ≡ disk_lent result (shows self.old).custody }
        ensures count { (shows self.new).faults
            ≡ count_after (find_failed result) (shows self.old).faults };

    /// Takes back a source that these files handed out.
    fn close_source(&mut self, source: Self::S)
        requires { 0 < (shows self.old).custody.sources.out }
        ensures returned { TakesSource (Self.S.name source) (Self.S.left source)
            (Self.S.faults source) (shows self.old).custody (shows self.new).custody }
        ensures same { AllStay (shows self.old).held (shows self.new).held }
        ensures disks { AllStay (shows self.old).disks (shows self.new).disks }
        ensures count { (shows self.new).faults
            ≡ count_after (is_faulty (Self.S.faults source)) (shows self.old).faults };

    /// Takes back a sink that these files handed out.
    fn close_sink(&mut self, sink: Self::K)
        requires { 0 < (shows self.old).custody.sinks.out }
        ensures returned { TakesSink (Self.K.name sink) (Self.K.written sink)
            (Self.K.faults sink) (shows self.old).custody (shows self.new).custody }
        ensures others { AllStayBut (Self.K.name sink)
            (shows self.old).held (shows self.new).held }
        ensures disks { AllStayBut (Self.K.name sink)
            (shows self.old).disks (shows self.new).disks }
        ensures count { (shows self.new).faults
            ≡ count_after (is_faulty (Self.K.faults sink)) (shows self.old).faults };

    /// Takes back a disk that these files handed out.
    fn close_disk(&mut self, disk: Self::D)
        requires { 0 < (shows self.old).custody.disks.out }
        ensures returned { TakesDisk (Self.D.name disk) (Self.D.past disk)
            (Self.D.faults disk) (shows self.old).custody (shows self.new).custody }
        ensures others { AllStayBut (Self.D.name disk)
            (shows self.old).held (shows self.new).held }
        ensures disks { AllStayBut (Self.D.name disk)
            (shows self.old).disks (shows self.new).disks }
        ensures count { (shows self.new).faults
            ≡ count_after (is_faulty (Self.D.faults disk)) (shows self.old).faults };
}
