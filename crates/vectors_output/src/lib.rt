// The output of the vectors. Each call is handed on to an output that may fail, and answers Ok whatever came of it: a write that fails leaves its text out,
// and a program that prints by `?` goes on to its last line. That a call is handed on no contract can say; what each program prints is compared with its file
// stdout.
#![tactic(auto)]

ghost use Rattle.std.specs.Prelude.{◌≤◌, length, IfOk};
ghost use Rattle.std.specs.Result.{IsOk};

use std::fmt::Display;
use std::io;

#[derive(Drop)]
pub struct LeavesOut<R> {
    pub output: R,
}

impl<R: Print> Print for LeavesOut<R> {
    fn print<D: Display + Drop>(&self, value: D) -> io::Result<()>
        ensures { IsOk result }
    {
        let _ = self.output.print(value);
        Ok(())
    }

    fn println<D: Display + Drop>(&self, value: D) -> io::Result<()>
        ensures { IsOk result }
    {
        let _ = self.output.println(value);
        Ok(())
    }

    fn write_all(&self, bytes: &[u8]) -> io::Result<()>
        ensures { IsOk result }
    {
        let _ = self.output.write_all(bytes);
        Ok(())
    }

    // The bytes of a write that failed are left out, all of them.
    fn write_some(&self, bytes: &[u8]) -> io::Result<usize>
        ensures written { IsOk result }
        ensures bound { IfOk result (λ n. n ≤ length bytes.now) }
    {
        Ok(self.output.write_some(bytes).unwrap_or(bytes.len()))
    }
}
