// Playing the input, command by command.
ghost use Rattle.std.specs.Prelude.{◌≤◌};
ghost use Rattle.console.specs.Coming.{to_come, Fewer};

use crate::choice::{Choice, First, Second};
use crate::command::{Command, Text};
use crate::desk::Desk;
use crate::fault::Fault;
use crate::lines::Lines;
use hosts::cells::Cells;
use hosts::host::Host;
use hosts::numbers::Numbers;
use hosts::script::Script;
use hosts::switch::Switch;
use session::call::Call;
use std::io;

// Empty lines and remarks say nothing.
fn says_nothing(line: &[u8]) -> bool {
    line.is_empty() || line.starts_with(b"--")
}

// Who reads the lines and plays them at the desk.
#[derive(Drop)]
struct Player<'a> {
    rt: &'a HostRuntime,
    lines: Lines<'a>,
    desk: Desk,
}

// What is to come is a clause of each method: it compares before and after, which no fact in a type can.
impl<'a> Player<'a> {
    // The text of a call.
    fn text<'b>(&mut self, text: &'b Text) -> Result<&'b [u8], Fault>
    where
        'a: 'b,
        ensures { to_come self.new.lines ≤ to_come self.old.lines }
    {
        match text {
            Text::Block => self.lines.block().ok_or(Fault::NotUnderstood),
            Text::Bytes(bytes) => Ok(bytes.as_slice()),
        }
    }

    // Carries a command out and prints its answer; a host that it chooses is handed back.
    fn obey<H: Host>(&mut self, host: &mut H, command: Command) -> Result<Option<Choice>, Fault>
        ensures { to_come self.new.lines ≤ to_come self.old.lines }
    {
        let rt = self.rt;
        match command {
            Command::Host(choice) => return Ok(Some(choice)),
            Command::Card { kind, table } => self.desk.renew(kind, table),
            Command::Call(request) => self.desk.call(rt, host, request.call())?,
            Command::Load(text) => {
                let text = self.text(&text)?;
                self.desk.call(rt, host, Call::Load { text })?;
            }
            Command::Fill { room, text } => {
                let text = self.text(&text)?;
                self.desk.fill(rt, host, room, text)?;
            }
            Command::Write { row, room } => self.desk.write(rt, row, room)?,
            Command::Fits { a, b } => self.desk.fits(rt, a, b)?,
            Command::Join { a, b } => self.desk.join(rt, a, b)?,
        }
        Ok(None)
    }

    // Carries a line out.
    fn carry_out<H: Host>(&mut self, host: &mut H, line: &[u8]) -> Result<Option<Choice>, Fault>
        ensures { to_come self.new.lines ≤ to_come self.old.lines }
    {
        let command = Command::read(self.rt.alloc(), line)?;
        self.obey(host, command)
    }

    // Plays one line.
    fn play_line<H: Host>(&mut self, host: &mut H, line: &[u8]) -> io::Result<Option<Choice>>
        ensures { to_come self.new.lines ≤ to_come self.old.lines }
    {
        let number = self.lines.line();
        match self.carry_out(host, line) {
            Ok(choice) => Ok(choice),
            Err(Fault::NotUnderstood) => {
                println!(self.rt; "line {number}: not understood")?;
                Ok(None)
            }
            Err(Fault::Io(error)) => Err(error),
        }
    }

    // Plays with one host, up to the command that chooses another.
    fn play_on<H: Host>(&mut self, host: &mut H) -> io::Result<Option<Choice>>
        ensures { Fewer result (to_come self.old.lines) (to_come self.new.lines) }
    {
        while let Some(line) = self.lines.next() {
            // Asked here, before `play_line`, which answers a `Result` that is written first.
            if says_nothing(line) {
                continue;
            }
            if let Some(choice) = self.play_line(host, line)? {
                return Ok(Some(choice));
            }
        }
        Ok(None)
    }

    fn play_switch<F: Host + Drop>(
        &mut self,
        first: F,
        second: &Second,
    ) -> io::Result<Option<Choice>>
        ensures { Fewer result (to_come self.old.lines) (to_come self.new.lines) }
    {
        match second {
            Second::Cells => {
                let second = Cells::new();
                self.play_on(&mut Switch { first, second })
            }
            Second::Script(cues) => {
                let second = Script::new(cues.as_slice());
                self.play_on(&mut Switch { first, second })
            }
        }
    }

    // Plays with the chosen host, up to the command that chooses another.
    fn play_with(&mut self, choice: &Choice) -> io::Result<Option<Choice>>
        ensures { Fewer result (to_come self.old.lines) (to_come self.new.lines) }
    {
        match choice {
            Choice::Numbers => self.play_on(&mut Numbers),
            Choice::Cells => self.play_on(&mut Cells::new()),
            Choice::Script(cues) => self.play_on(&mut Script::new(cues.as_slice())),
            Choice::Switch { first, second } => match first {
                First::Numbers => self.play_switch(Numbers, second),
                First::Cells => self.play_switch(Cells::new(), second),
            },
        }
    }
}

// Plays the whole input.
pub fn play(rt: &HostRuntime, input: &[u8]) -> io::Result<()> {
    let mut player = Player {
        rt,
        lines: Lines::new(input),
        desk: Desk::new(),
    };
    let mut choice = Choice::standard();
    while let Some(next) = player.play_with(&choice)? {
        choice = next;
    }
    Ok(())
}
