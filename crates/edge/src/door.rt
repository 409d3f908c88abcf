//! A door, at which peers come.
ghost use Rattle.std.specs.Prelude.{◌≡◌, ◌≢◌, [], Ok, true, IfOk, IfSome};
ghost use Rattle.edge.specs.Faults.{FailsOnlyWithFault};
ghost use Rattle.edge.specs.Openings.{AnswersDoor, HasLetIn, HasOpened};

use crate::traits::{Counted, Failed, Sink, Source, Stream};

/// A door at which peers come, one connection after another. `read` and `write` act on the present one.
pub trait Door: Source + Sink {
    /// Waits for the next connection and answers whether one came: `false` exactly where the door is closed.
    ///
    /// `Failed` comes only with a fault and a failed opening. Where none came all is as before.
    fn accept(&mut self) -> Result<bool, Failed>
        ensures answer { IfOk result (AnswersDoor (Self.openings self.old).closed) }
        ensures opened { result ≡ Ok true → HasOpened [] (Self.connections self.old) (Self.connections self.new) }
        ensures unwritten { result ≡ Ok true → IfSome (Self.written self.new) (λ bytes. bytes ≡ []) }
        ensures let_in { result ≡ Ok true → HasLetIn (Self.openings self.old) (Self.openings self.new) }
        ensures connections { result ≢ Ok true → Self.connections self.new ≡ Self.connections self.old }
        ensures left { result ≢ Ok true → Self.left self.new ≡ Self.left self.old }
        ensures written { result ≢ Ok true → Self.written self.new ≡ Self.written self.old }
        ensures openings { result ≢ Ok true → Self.openings self.new ≡ Self.openings self.old }
        ensures cause { FailsOnlyWithFault (Self.faults self.old) (Self.faults self.new) result }
        ensures failed_openings { FailsOnlyWithFault (Self.failed_openings self.old) (Self.failed_openings self.new) result };

    /// Ends the present connection. Nothing that is told changes.
    fn shut(&mut self)
        ensures connections { Self.connections self.new ≡ Self.connections self.old }
        ensures left { Self.left self.new ≡ Self.left self.old }
        ensures written { Self.written self.new ≡ Self.written self.old }
        ensures openings { Self.openings self.new ≡ Self.openings self.old }
        ensures faults { Self.faults self.new ≡ Self.faults self.old }
        ensures failed_openings { Self.failed_openings self.new ≡ Self.failed_openings self.old };
}
