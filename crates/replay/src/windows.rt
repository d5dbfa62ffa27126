// The windows of a `setup`, in the order given (document 02, W8). Whether there are such days and such windows is for set-up to say.
use crate::event::Fault;
use crate::words::{cut, is_space, number};
use hours::windows::WindowRow;
use std::alloc::{AllocError, Global};

// Every day is open from 0 to 1,440.
pub fn open_week(alloc: Global) -> Result<Vec<WindowRow>, AllocError> {
    (0..7).map(|day| [day, 0, 1440]).collect(alloc)
}

// A word DAY:FROM-TO.
fn window(word: &[u8]) -> Result<WindowRow, Fault> {
    let (day, hours) = cut(word, b':')?;
    let (from, to) = cut(hours, b'-')?;
    Ok([number(day)?, number(from)?, number(to)?])
}

// So many are kept: set-up refuses a window before it comes to the last of them, eight of each weekday fitting at most.
const MOST: usize = 64;

// The windows of a line, from its fifth word on.
pub fn windows(alloc: Global, line: &[u8]) -> Result<Vec<WindowRow>, Fault> {
    let mut all = Vec::new(alloc);
    for word in line.split(is_space).skip(4) {
        let row = window(word)?;
        if all.len() < MOST {
            all.push(row)?;
        }
    }
    Ok(all)
}
