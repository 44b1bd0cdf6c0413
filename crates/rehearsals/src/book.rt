//! Scenes as they are written.
use crate::pieces::{push_piece, push_text};
use crate::scene::{Call, Client, Named, Scene, Step};
use crate::trouble::Trouble;
use std::alloc::{AllocError, Global};

/// Where lines of bytes go.
#[derive(Clone, Copy, PartialEq, Eq)]
enum Block {
    /// To the last text that has a name.
    Text,
    /// To the last file or disk.
    Given,
    /// To the call itself.
    Call,
    /// To the last client of the call.
    Client,
    /// To the last disk that has to be there afterwards.
    Kept,
    /// To what a standby has to be given.
    Frames,
}

/// What was read so far.
#[derive(Drop)]
struct Book {
    alloc: Global,
    texts: Vec<Named>,
    cuts: Vec<usize>,
    scenes: Vec<Scene>,
    block: Block,
}

/// Reads all scenes of a text.
pub fn read_book(alloc: Global, text: &str) -> Result<Vec<Scene>, Trouble> {
    let cuts = vec![in alloc; 4096]?;
    let mut book = Book {
        alloc,
        texts: Vec::new(alloc),
        cuts,
        scenes: Vec::new(alloc),
        block: Block::Text,
    };
    book.take_all(text)?;
    Ok(book.scenes)
}

impl Book {
    /// Takes all lines of a text.
    fn take_all(&mut self, text: &str) -> Result<(), Trouble> {
        for (index, line) in text.lines().enumerate() {
            if self.take(line)?.is_none() {
                return Err(Trouble::Line(index.saturating_add(1)));
            }
        }
        Ok(())
    }

    /// Takes a line; `None` where it has no form.
    fn take(&mut self, line: &str) -> Result<Option<()>, AllocError> {
        if line.is_empty() || line.starts_with("# ") || line == "#" {
            return Ok(Some(()));
        }
        let (head, rest) = line.split_once(" ").unwrap_or((line, ""));
        match head {
            "==" => self.begin(rest),
            "cuts" => self.cut(rest),
            "text" => self.name(rest),
            "file" => self.give(rest, false),
            "disk" => self.give(rest, true),
            "$" => self.call(rest),
            _ => self.take_inner(head, rest),
        }
    }

    /// Takes a line about the last call, or one of bytes.
    fn take_inner(&mut self, head: &str, rest: &str) -> Result<Option<()>, AllocError> {
        match head {
            "client" => self.client(),
            "kept" => self.keep(rest),
            "gone" => self.miss(rest),
            "frames" => Ok(self.frames()),
            "status" | "left" | "unread" | "unreached" => Ok(self.number(head, rest)),
            _ => self.piece(head, rest),
        }
    }

    /// Begins a scene.
    fn begin(&mut self, name: &str) -> Result<Option<()>, AllocError> {
        self.scenes.push(Scene {
            name: String::from_str(self.alloc, name)?,
            cuts: self.cuts.clone()?,
            steps: Vec::new(self.alloc),
        })?;
        Ok(Some(()))
    }

    /// Says in which pieces the scenes from here on are played.
    fn cut(&mut self, rest: &str) -> Result<Option<()>, AllocError> {
        match numbers(self.alloc, rest)? {
            Some(cuts) => self.cuts = cuts,
            None => return Ok(None),
        }
        Ok(Some(()))
    }

    /// Begins a text that has a name.
    fn name(&mut self, name: &str) -> Result<Option<()>, AllocError> {
        self.texts.push(named(self.alloc, name)?)?;
        self.block = Block::Text;
        Ok(Some(()))
    }

    /// Begins a file or a disk.
    fn give(&mut self, name: &str, is_disk: bool) -> Result<Option<()>, AllocError> {
        let given = named(self.alloc, name)?;
        let step = if is_disk {
            Step::Disk(given)
        } else {
            Step::File(given)
        };
        self.block = Block::Given;
        self.step(step)
    }

    /// Appends a step to the last scene.
    fn step(&mut self, step: Step) -> Result<Option<()>, AllocError> {
        let Some(scene) = self.scenes.last_mut() else {
            return Ok(None);
        };
        scene.steps.push(step)?;
        Ok(Some(()))
    }

    /// Begins a call.
    fn call(&mut self, rest: &str) -> Result<Option<()>, AllocError> {
        let Some(words) = words_of(self.alloc, rest)? else {
            return Ok(None);
        };
        self.block = Block::Call;
        self.step(Step::Call(call_of(self.alloc, words)))
    }

    /// Begins a client of the last call.
    fn client(&mut self) -> Result<Option<()>, AllocError> {
        let alloc = self.alloc;
        let Some(call) = last_call(&mut self.scenes) else {
            return Ok(None);
        };
        call.clients.push(Client {
            sends: Vec::new(alloc),
            gets: Vec::new(alloc),
        })?;
        self.block = Block::Client;
        Ok(Some(()))
    }

    /// Begins a disk that has to be there behind the last call.
    fn keep(&mut self, name: &str) -> Result<Option<()>, AllocError> {
        let kept = named(self.alloc, name)?;
        let Some(call) = last_call(&mut self.scenes) else {
            return Ok(None);
        };
        call.kept.push(kept)?;
        self.block = Block::Kept;
        Ok(Some(()))
    }

    /// Names a disk that may not be there behind the last call.
    fn miss(&mut self, name: &str) -> Result<Option<()>, AllocError> {
        let name = String::from_str(self.alloc, name)?;
        let Some(call) = last_call(&mut self.scenes) else {
            return Ok(None);
        };
        call.gone.push(name)?;
        Ok(Some(()))
    }

    /// Begins what a standby has to be given in the last call.
    fn frames(&mut self) -> Option<()> {
        last_call(&mut self.scenes)?;
        self.block = Block::Frames;
        Some(())
    }

    /// The status of the last call, how many clients are left, that its input isn't read, or that
    /// no standby is reached.
    fn number(&mut self, head: &str, rest: &str) -> Option<()> {
        set_number(last_call(&mut self.scenes)?, head, rest)
    }

    /// Appends a line of bytes to where its mark and the block say.
    fn piece(&mut self, head: &str, rest: &str) -> Result<Option<()>, AllocError> {
        let Some(mark) = Mark::of(head) else {
            return Ok(None);
        };
        let Some(bytes) = self.bytes_of(mark.flags, rest)? else {
            return Ok(None);
        };
        self.append(mark.kind, &bytes)
    }

    /// The bytes for which a line stands.
    fn bytes_of(&self, flags: &str, rest: &str) -> Result<Option<Vec<u8>>, AllocError> {
        let mut bytes = Vec::new(self.alloc);
        if push_piece(self.alloc, &mut bytes, &self.texts, flags, rest)? {
            Ok(Some(bytes))
        } else {
            Ok(None)
        }
    }

    /// Appends bytes of this kind to where they belong.
    fn append(&mut self, kind: Kind, bytes: &[u8]) -> Result<Option<()>, AllocError> {
        match self.target(kind) {
            Some(target) => target.extend_from_slice(bytes)?,
            None => return Ok(None),
        }
        Ok(Some(()))
    }

    /// The bytes to which lines of this kind belong.
    fn target(&mut self, kind: Kind) -> Option<&mut Vec<u8>> {
        match (kind, self.block) {
            (Kind::Bytes, Block::Text) => Some(&mut self.texts.last_mut()?.bytes),
            (Kind::Bytes, Block::Given) => given_bytes(self.scenes.last_mut()?.steps.last_mut()?),
            (kind, block) => bytes_of_call(last_call(&mut self.scenes)?, kind, block),
        }
    }
}

/// What a line of bytes is of.
#[derive(Clone, Copy, PartialEq, Eq)]
enum Kind {
    /// `|`: a text, a file or a disk.
    Bytes,
    /// `<`: what comes in.
    Input,
    /// `>`: what has to come out.
    Output,
    /// `!`: the complaint that has to come.
    Complaint,
}

/// The mark at the head of a line of bytes.
#[derive(Clone, Copy)]
struct Mark<'t> {
    kind: Kind,
    flags: &'t str,
}

const MARKS: [(&str, Kind); 4] = [
    ("|", Kind::Bytes),
    ("<", Kind::Input),
    (">", Kind::Output),
    ("!", Kind::Complaint),
];

impl<'t> Mark<'t> {
    fn of(head: &'t str) -> Option<Mark<'t>> {
        for (mark, kind) in &MARKS {
            if let Some(flags) = head.strip_prefix(*mark) {
                return Some(Mark { kind: *kind, flags });
            }
        }
        None
    }
}

/// A name with no bytes so far.
fn named(alloc: Global, name: &str) -> Result<Named, AllocError> {
    Ok(Named {
        name: String::from_str(alloc, name)?,
        bytes: Vec::new(alloc),
    })
}

/// A call of these words from which nothing has to come yet.
fn call_of(alloc: Global, words: Vec<String>) -> Call {
    Call {
        words,
        input: Vec::new(alloc),
        clients: Vec::new(alloc),
        output: Vec::new(alloc),
        complaint: Vec::new(alloc),
        status: 0,
        unread: false,
        unreached: false,
        frames: Vec::new(alloc),
        left: 0,
        kept: Vec::new(alloc),
        gone: Vec::new(alloc),
    }
}

/// Says of a call which status it has to have, how many clients are left, that its input isn't
/// read, or that no standby is reached.
fn set_number(call: &mut Call, head: &str, rest: &str) -> Option<()> {
    match head {
        "status" => call.status = rest.parse::<u8>().ok()?,
        "left" => call.left = rest.parse::<usize>().ok()?,
        "unreached" => call.unreached = true,
        _ => call.unread = true,
    }
    Some(())
}

/// The bytes of a call to which lines of this kind belong in this block.
fn bytes_of_call(call: &mut Call, kind: Kind, block: Block) -> Option<&mut Vec<u8>> {
    match (kind, block) {
        (Kind::Bytes, Block::Kept) => Some(&mut call.kept.last_mut()?.bytes),
        (Kind::Bytes, Block::Frames) => Some(&mut call.frames),
        (Kind::Input, Block::Client) => Some(&mut call.clients.last_mut()?.sends),
        (Kind::Output, Block::Client) => Some(&mut call.clients.last_mut()?.gets),
        (Kind::Input, Block::Call) => Some(&mut call.input),
        (Kind::Output, Block::Call) => Some(&mut call.output),
        (Kind::Complaint, _) => Some(&mut call.complaint),
        _ => None,
    }
}

/// The numbers of a line, with blanks between them.
fn numbers(alloc: Global, line: &str) -> Result<Option<Vec<usize>>, AllocError> {
    let mut numbers = Vec::new(alloc);
    for word in line.split_whitespace() {
        match word.parse::<usize>() {
            Ok(number) => numbers.push(number)?,
            Err(_) => return Ok(None),
        }
    }
    Ok(Some(numbers))
}

/// The last call of the last scene.
fn last_call(scenes: &mut Vec<Scene>) -> Option<&mut Call> {
    match scenes.last_mut()?.steps.last_mut()? {
        Step::Call(call) => Some(call),
        Step::File(_) | Step::Disk(_) => None,
    }
}

/// The bytes of a file or a disk.
fn given_bytes(step: &mut Step) -> Option<&mut Vec<u8>> {
    match step {
        Step::File(given) => Some(&mut given.bytes),
        Step::Disk(given) => Some(&mut given.bytes),
        Step::Call(_) => None,
    }
}

/// The words of a line, with blanks between them; each may have a backslash as a text does.
pub fn words_of(alloc: Global, line: &str) -> Result<Option<Vec<String>>, AllocError> {
    let mut words = Vec::new(alloc);
    for word in line.split_whitespace() {
        match word_of(alloc, word)? {
            Some(word) => words.push(word)?,
            None => return Ok(None),
        }
    }
    Ok(Some(words))
}

/// A word that may have a backslash as a text does.
fn word_of(alloc: Global, word: &str) -> Result<Option<String>, AllocError> {
    let mut bytes = Vec::new(alloc);
    if push_text(&mut bytes, word)? {
        Ok(String::from_utf8(bytes).ok())
    } else {
        Ok(None)
    }
}
