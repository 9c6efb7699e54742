// The case that is being made.
use crate::gate::{Meeting, Task};
use crate::line::{CaseText, number_of, parted};
use crate::page::Page;
use crate::text::add_piece;
use std::alloc::Global;

// The arguments of a case that specifies none: the names of its two texts.
const NAMES: &[u8] = b"a.orc\na.sco\n";

/// The text to which a line of text is added.
#[derive(Clone, Copy)]
pub enum Filling {
    Orchestra,
    Score,
    Words,
}

/// What a line that adds no text does.
#[derive(Clone, Copy)]
pub enum Command {
    Nothing,
    Begin(Filling),
    Crowd,
    Play,
    /// A setting that holds only for the next case.
    Once,
}

/// Returns what a line with this first word does.
pub fn command_of(word: &str) -> Command {
    match word {
        "" => Command::Nothing,
        "orc" => Command::Begin(Filling::Orchestra),
        "sco" => Command::Begin(Filling::Score),
        "words" => Command::Begin(Filling::Words),
        "crowd" => Command::Crowd,
        "play" => Command::Play,
        _ if word.starts_with('#') => Command::Nothing,
        _ => Command::Once,
    }
}

/// The settings that hold for one case only; a number is 0 if it isn't set.
#[derive(Clone, Copy, Default)]
pub struct Once {
    /// The number of the call that fails.
    pub shelf_fails: u32,
    pub wav_fails: u32,
    pub talk_fails: u32,
    /// The highest number of bytes of one write.
    pub wav_room: u32,
    pub talk_room: u32,
    pub has_words: bool,
    /// Whether the line shows the sound file's bytes instead of its samples.
    pub hex: bool,
    /// Whether the line shows the calls made on the three objects.
    pub calls: bool,
    /// Whether the line shows the report of a run that ended Ok.
    pub report: bool,
    /// Whether the case runs twice with one shelf.
    pub twice: bool,
    pub task: Option<Task>,
    /// The capacity of a mirror that receives the mix too; 0 for none.
    pub mirror: u32,
    /// Whether samples have three bytes.
    pub wide: bool,
    /// Whether the last meter records its drop, and the line shows each meter's line.
    pub drops: bool,
    /// Whether the shelf and the sinks never fail and tell no calls.
    pub sure: bool,
}

impl Once {
    /// Applies the setting of a line. Returns whether the line has a setting.
    pub fn take(&mut self, word: &str, rest: &str) -> bool {
        let (name, behind) = parted(rest);
        let (first, second) = (number_of(name.as_bytes()), number_of(behind.as_bytes()));
        match word {
            "fail" => return self.fail(name, second),
            "room" if name == "talk" => self.talk_room = second,
            "room" => self.wav_room = first,
            "mirror" => self.mirror = first,
            "meet" => self.meet(first, 0, 1, 2),
            "gather" => self.meet(0, first, second, 2),
            "sum" => self.task = Some(Task::Summing(first)),
            "count" => self.task = Some(Task::Counting(first)),
            _ => return self.flag(word),
        }
        true
    }

    fn flag(&mut self, word: &str) -> bool {
        match word {
            "hex" => self.hex = true,
            "calls" => self.calls = true,
            "report" => self.report = true,
            "twice" => self.twice = true,
            "wide" => self.wide = true,
            "drops" => self.drops = true,
            "sure" => self.sure = true,
            _ => return false,
        }
        true
    }

    /// Sets the gate to hold `notes` notes at the same time.
    pub fn crowd(&mut self, notes: u32) {
        self.meet(0, 0, 1, notes);
    }

    fn meet(&mut self, note: u32, cycle: u32, cycles: u32, notes: u32) {
        self.task = Some(Task::Meeting(Meeting {
            note,
            cycle,
            cycles,
            notes,
        }));
    }

    fn fail(&mut self, object: &str, call: u32) -> bool {
        match object {
            "shelf" => self.shelf_fails = call,
            "wav" => self.wav_fails = call,
            "talk" => self.talk_fails = call,
            _ => return false,
        }
        true
    }
}

/// Two texts, which stay until others are begun, and the settings that hold only for the next case.
#[derive(Drop)]
pub struct CaseDesk {
    pub orchestra: Page,
    pub score: Page,
    /// The arguments, one in each line.
    pub words: Page,
    pub once: Once,
    filling: Filling,
}

impl CaseDesk {
    /// Makes a desk with empty texts and no settings.
    pub fn new(alloc: Global) -> CaseDesk {
        CaseDesk {
            orchestra: Page::new(alloc),
            score: Page::new(alloc),
            words: Page::new(alloc),
            once: Once::default(),
            filling: Filling::Orchestra,
        }
    }

    /// Begins a new text of this kind, to which lines are added from now on.
    pub fn begin(&mut self, filling: Filling) -> &mut Page {
        self.filling = filling;
        if matches!(filling, Filling::Words) {
            self.once.has_words = true;
        }
        let begun = self.begun();
        begun.clear();
        begun
    }

    fn begun(&mut self) -> &mut Page {
        match self.filling {
            Filling::Orchestra => &mut self.orchestra,
            Filling::Score => &mut self.score,
            Filling::Words => &mut self.words,
        }
    }

    /// Returns the arguments of the case, one in each line.
    pub fn own_words(&self) -> &[u8] {
        if self.once.has_words {
            self.words.bytes()
        } else {
            NAMES
        }
    }

    /// Returns whether any number of workers may play the case: its arguments name no number, and its line
    /// shows nothing about workers.
    pub fn is_for_any_crew(&self) -> bool {
        self.once.task.is_none() && !names_a_crew(self.own_words())
    }

    /// Clears the settings that held only for the last case.
    pub fn forget(&mut self) {
        self.once = Once::default();
    }

    /// Adds a piece of text to the text that was begun last.
    pub fn add(&mut self, piece: CaseText<'_>) {
        add_piece(self.begun(), piece);
    }
}

// Returns whether one of these arguments names a number or a kind of workers.
fn names_a_crew(words: &[u8]) -> bool {
    for word in words.split(|byte| *byte == b'\n') {
        if asks_for_workers(word) {
            return true;
        }
    }
    false
}

fn asks_for_workers(word: &[u8]) -> bool {
    if word.starts_with(b"--") {
        word == b"--pool".as_slice()
    } else {
        word.starts_with(b"-") && word.contains(&b'j')
    }
}
