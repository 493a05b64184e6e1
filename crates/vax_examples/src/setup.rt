//! What the lines of a file of rows set up for the calls behind them.
use crate::pages::Pages;
use anyhow::{Context, Result, bail};
use std::alloc::{AllocError, Global};
use vax_outside::{Fail, MemFiles, MemPages, MemSink};

/// The files that there are; and for the next call of the program, the calls that are to fail, whether its block writes are counted, how many bytes a
/// channel takes at a time, what the page file adds to the first byte of a block, the file whose lines come from standard input, and a series, if
/// one was said.
#[derive(Drop)]
pub(crate) struct Setup {
    alloc: Global,
    files: Vec<(String, Vec<u8>)>,
    fails: Fails,
    pub(crate) has_any_blocks: bool,
    pub(crate) bites: u32,
    pub(crate) added: u8,
    typed: String,
    pub(crate) series: Option<Series>,
}

/// How many bytes a channel takes at a time, where nothing is said.
const BITES: u32 = 7;

/// An object whose calls may fail.
#[derive(Clone, Copy, PartialEq, Eq)]
enum Object {
    Files,
    Channels,
    Pages,
}

impl Object {
    fn from_word(word: &str) -> Result<Object> {
        Ok(match word {
            "files" => Object::Files,
            "channels" => Object::Channels,
            "pages" => Object::Pages,
            _ => bail!("no such object"),
        })
    }
}

/// What changes from call to call.
#[derive(Drop)]
enum Changing {
    /// The number of the object's call that fails.
    Fail(Object, usize),
    /// The length of the file.
    Cut(String),
    /// The byte of the file that is changed.
    Turn(String),
}

/// A series of calls.
#[derive(Drop)]
pub(crate) struct Series {
    changing: Changing,
}

impl Series {
    /// The number of its first call.
    pub(crate) fn first(&self) -> usize {
        match self.changing {
            Changing::Fail(_, _) => 1,
            _ => 0,
        }
    }

    /// Whether it ends where a call leaves what it leaves without a change.
    pub(crate) fn ends(&self) -> bool {
        matches!(self.changing, Changing::Fail(_, _))
    }

    /// A file's bytes, as they are in this call of the series.
    fn change(&self, number: usize, name: &str, bytes: &mut Vec<u8>) {
        match &self.changing {
            Changing::Cut(cut) if cut.as_str() == name => bytes.truncate(number),
            Changing::Turn(turned) if turned.as_str() == name => {
                if let Some(byte) = bytes.get_mut(number) {
                    *byte = 255 - *byte;
                }
            }
            _ => {}
        }
    }

    /// The call that fails beside those that were said.
    fn fail(&self, number: usize, of: Object) -> Option<Fail> {
        match self.changing {
            Changing::Fail(object, _) if object == of => Some(Fail::Call(number as u64)),
            _ => None,
        }
    }
}

/// A call of a series by its number.
#[derive(Clone, Copy)]
pub(crate) struct Change<'a> {
    pub(crate) series: &'a Series,
    pub(crate) number: usize,
}

/// The calls that fail: those that were said, and that of the series.
fn failing(
    alloc: Global,
    said: &[Fail],
    change: Option<Change>,
    of: Object,
) -> Result<Vec<Fail>, AllocError> {
    let mut all = Vec::new(alloc);
    all.extend_from_slice(said)?;
    if let Some(change) = change {
        if let Some(fail) = change.series.fail(change.number, of) {
            all.push(fail)?;
        }
    }
    Ok(all)
}

/// The calls of the files, of the channels and of the page file that are to fail.
#[derive(Drop)]
struct Fails {
    files: Vec<Fail>,
    channels: Vec<Fail>,
    pages: Vec<Fail>,
}

impl Fails {
    fn none(alloc: Global) -> Fails {
        Fails {
            files: Vec::new(alloc),
            channels: Vec::new(alloc),
            pages: Vec::new(alloc),
        }
    }
}

/// How a line behind `file` or `bytes` gives bytes of the file.
#[derive(Clone, Copy)]
pub(crate) enum Form {
    Text,
    Hexadecimal,
}

impl Setup {
    pub(crate) fn new(alloc: Global) -> Setup {
        Setup {
            alloc,
            files: Vec::new(alloc),
            fails: Fails::none(alloc),
            has_any_blocks: false,
            bites: BITES,
            added: 0,
            typed: String::new(alloc),
            series: None,
        }
    }

    /// Takes back what was said of one call alone.
    pub(crate) fn take_back(&mut self) {
        self.fails = Fails::none(self.alloc);
        self.has_any_blocks = false;
        self.bites = BITES;
        self.added = 0;
        self.typed = String::new(self.alloc);
    }

    /// Says whose lines come from standard input in the next call.
    pub(crate) fn types(&mut self, name: &str) -> Result<()> {
        self.typed = String::from_str(self.alloc, name)?;
        Ok(())
    }

    /// The bytes that come from standard input: those of a file, none where none was said.
    pub(crate) fn typed(&self) -> &[u8] {
        for file in &self.files {
            if file.0.as_str() == self.typed.as_str() {
                return &file.1;
            }
        }
        &[]
    }

    /// Says a series for the next call, as `fail pages 100` or `cut A` does.
    pub(crate) fn begin_series(&mut self, said: &str) -> Result<()> {
        let mut words = said.split(' ');
        let (Some(kind), Some(name)) = (words.next(), words.next()) else {
            bail!("a series has two words or three");
        };
        let changing = match kind {
            "fail" => {
                let count = words.next().context("no count")?;
                let count = count.parse::<u32>().context("no count")?;
                Changing::Fail(Object::from_word(name)?, count as usize)
            }
            "cut" => Changing::Cut(String::from_str(self.alloc, name)?),
            "turn" => Changing::Turn(String::from_str(self.alloc, name)?),
            _ => bail!("no such series"),
        };
        self.series = Some(Series { changing });
        Ok(())
    }

    /// The number behind the last call of a series.
    pub(crate) fn count(&self, series: &Series) -> usize {
        match &series.changing {
            Changing::Fail(_, count) => count.saturating_add(1),
            Changing::Cut(name) | Changing::Turn(name) => self.length(name.as_str()),
        }
    }

    /// The length of a file.
    fn length(&self, name: &str) -> usize {
        for file in &self.files {
            if file.0.as_str() == name {
                return file.1.len();
            }
        }
        0
    }

    /// Gives a name an empty file, which takes the place of an earlier one.
    pub(crate) fn begin(&mut self, name: &str) -> Result<(), AllocError> {
        self.files.retain(|file| file.0.as_str() != name);
        self.files.push((String::from_str(self.alloc, name)?, Vec::new(self.alloc)))?;
        Ok(())
    }

    /// Appends bytes to the file that was begun last.
    fn append(&mut self, bytes: &[u8]) -> Result<()> {
        let (_, all) = self.files.last_mut().context("bytes of no file")?;
        all.extend_from_slice(bytes)?;
        Ok(())
    }

    /// Appends what a line gives to the file that was begun last.
    pub(crate) fn go_on(&mut self, form: Form, line: &str) -> Result<()> {
        match form {
            Form::Text => {
                self.append(line.as_bytes())?;
                self.append(b"\n")
            }
            Form::Hexadecimal => {
                for digits in line.split(' ') {
                    let byte = u8::from_str_radix(digits, 16).context("no two digits")?;
                    self.append(&[byte])?;
                }
                Ok(())
            }
        }
    }

    /// Takes the last end of line off the file that was begun last.
    pub(crate) fn cut(&mut self) {
        if let Some((_, all)) = self.files.last_mut() {
            let _ = all.pop();
        }
    }

    /// Appends so many blanks to the file that was begun last.
    pub(crate) fn append_blanks(&mut self, count: &str) -> Result<()> {
        let count = count.parse::<u32>().context("no count")?;
        for _ in 0..count {
            self.append(b" ")?;
        }
        Ok(())
    }

    /// Lets a call of the files, of the channels or of the page file fail, as `channels write 3` says.
    pub(crate) fn fail(&mut self, said: &str) -> Result<()> {
        let mut words = said.split(' ');
        let (Some(object), Some(kind), Some(number)) = (words.next(), words.next(), words.next())
        else {
            bail!("a failure has three words");
        };
        let number = number.parse::<u64>().context("no number")?;
        let fail = match kind {
            "read" => Fail::Read(number),
            "write" => Fail::Write(number),
            _ => bail!("only reads and writes fail"),
        };
        match Object::from_word(object)? {
            Object::Files => self.fails.files.push(fail)?,
            Object::Channels => self.fails.channels.push(fail)?,
            Object::Pages => self.fails.pages.push(fail)?,
        }
        Ok(())
    }

    /// The objects of a call, with a change if one is given.
    pub(crate) fn objects(&self, change: Option<Change>) -> Result<(MemFiles, MemSink, Pages)> {
        let mut files = Vec::new(self.alloc);
        for (name, bytes) in &self.files {
            let mut bytes = bytes.clone()?;
            if let Some(change) = change {
                change
                    .series
                    .change(change.number, name.as_str(), &mut bytes);
            }
            files.push((name.clone()?, bytes))?;
        }
        let said = &self.fails;
        let failing_files = failing(self.alloc, &said.files, change, Object::Files)?;
        let failing_writes = failing(self.alloc, &said.channels, change, Object::Channels)?;
        let failing_blocks = failing(self.alloc, &said.pages, change, Object::Pages)?;
        let sink = MemSink::new(
            self.alloc,
            [2000, 4000, 2000],
            self.bites.max(1),
            failing_writes,
        )?;
        let pages = Pages {
            blocks: MemPages::new(self.alloc, 1000, 4000, failing_blocks)?,
            added: self.added,
        };
        Ok((MemFiles::new(files, failing_files), sink, pages))
    }
}
