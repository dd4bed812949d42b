//! The program of commands, over lines and a page in memory.

use crate::scenario::{Lost, Scenario};
use shaping_session::run::{RunFault, run_on};
use std::alloc::Global;
use std::io::{self, ErrorKind, Write};

const LINES: &[u8] = b"\
push abcd\n\
add 65 9\n\
level 1\n\
state\n\
clear_output\n\
replace_glyphs 1 3 7 8 9\n\
move_to 1\n\
sync\n\
serialize 0\n\
push xyz\n\
feature kern[1:3]=2\n\
tags Mlym ml\n\
compose 1100 1161\n\
serialize 4\n\
";

const ANSWERS: &[u8] = b"\
true\n\
true\n\
ok\n\
open=0 idx=0 ok=1 out=[] in=[97:0:0 98:1:0 99:2:0 100:3:0 101:9:0]\n\
done\n\
done\n\
done\n\
done\n\
gid7=0+0|gid8=0+0|gid9=0+0|gid98=1+0|gid99=2+0|gid100=3+0|gid101=9+0\n\
true\n\
6b65726e 2 1 3\n\
scripts 6d6c6d33 6d6c6d32 6d6c796d languages 4d414c20\n\
ac00\n\
120=0+0|121=1+0|122=2+0\n\
";

/// Where answers are written without memory being asked for.
#[derive(Drop)]
struct Page {
    bytes: [u8; 512],
    len: usize,
}

impl Page {
    fn new() -> Page {
        Page {
            bytes: [0; 512],
            len: 0,
        }
    }

    fn written(&self) -> &[u8] {
        self.bytes.get(..self.len).unwrap_or_default()
    }
}

impl Write for Page {
    fn write(&mut self, buf: &[u8]) -> io::Result<usize> {
        for byte in buf {
            let Some(place) = self.bytes.get_mut(self.len) else {
                return Err(io::Error::from(ErrorKind::StorageFull));
            };
            *place = *byte;
            self.len = self.len.wrapping_add(1);
        }
        Ok(buf.len())
    }

    fn flush(&mut self) -> io::Result<()> {
        Ok(())
    }
}

/// Lines are answered.
pub struct Program;

impl Scenario for Program {
    type Ready = ();

    fn name(&self) -> &str {
        "run_on over lines in memory"
    }

    fn least(&self) -> u32 {
        30
    }

    fn prepare(&self, _alloc: Global) -> Result<(), Lost> {
        Ok(())
    }

    fn watch(&self, alloc: Global, _ready: ()) -> Result<(), Lost> {
        let mut page = Page::new();
        if let Err(lost) = answer(alloc, &mut page) {
            if lost != Lost::Memory {
                return Err(lost);
            }
            if !is_beginning(page.written()) {
                return Err(Lost::EarlierAnswers);
            }
            page = Page::new();
            answer(alloc, &mut page)?;
        }
        if page.written() != ANSWERS {
            return Err(Lost::Answers);
        }
        Ok(())
    }
}

fn answer(alloc: Global, page: &mut Page) -> Result<(), Lost> {
    let mut lines = LINES;
    match run_on(alloc, &mut lines, page) {
        Ok(0) => Ok(()),
        Err(RunFault::Memory) => Err(Lost::Memory),
        _ => Err(Lost::Refusal),
    }
}

/// Whether these are whole lines of the answers' beginning.
fn is_beginning(written: &[u8]) -> bool {
    ANSWERS.starts_with(written) && (written.is_empty() || written.ends_with(b"\n"))
}
