// A script as it is played.
ghost use Rattle.std.specs.Prelude.{◌≡◌, List};
ghost use Rattle.semantics.specs.Hosts.{Line, script_reply};
ghost use Rattle.hosts.specs.Scripts.{lines_of, lines_left};

use crate::host::Host;
use crate::script::{Cue, Script};
use semantics::value::{Answer, Cause, Question};

impl<'a> Script<'a> {
    pub fn new(cues: &'a [Cue]) -> Script<'a>
        ensures { lines_left result ≡ lines_of cues.now }
    {
        Script { left: cues }
    }
}

impl<'a> Host for Script<'a> {
    ghost Condition = { List Line };

    ghost condition = { lines_left };

    ghost reply = { script_reply };

    fn ask(&mut self, question: &Question) -> Answer {
        let (cue, rest) = self.left.split_first().ok_or(Cause::ScriptUsedUp)?;
        if cue.name != question.name {
            return Err(Cause::NameDiffers);
        }
        self.left = rest;
        Ok(cue.value)
    }
}
