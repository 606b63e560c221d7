ghost use Rattle.std.specs.Prelude.{◌<◌, IfSome};

use beam_text::{push_blob, push_value};
use beam_values::{Bytes, List, NoMemory, Range, Span, Time, Value};
use itoa::Buffer;
use std::alloc::Global;
use std::str::{FromStr, from_utf8};

/// A case while it is run: what is left to read of its input, what it expects, and what was answered so
/// far. The first fault stays; what is read and answered after it means nothing.
#[derive(Drop)]
pub struct Case<'a> {
    rest: &'a [u8],
    expected: Bytes,
    answer: List<u8>,
    // What stands before the next part of the answer.
    separator: &'static [u8],
    fault: Option<&'static str>,
    // The number of this run, and how long the longest text is of which the runs read the fronts.
    k: usize,
    longest: usize,
    alloc: Global,
}

/// The input. Every reading passes the spaces before it.
impl<'a> Case<'a> {
    /// There is no input yet, and nothing is expected. Takes no memory.
    pub fn new(alloc: Global) -> Case<'a> {
        Case {
            rest: b"",
            expected: Bytes::new(alloc),
            answer: List::new(alloc),
            separator: b"",
            fault: None,
            k: 0,
            longest: 0,
            alloc,
        }
    }

    /// Where memory for the case is taken.
    pub fn alloc(&self) -> Global {
        self.alloc
    }

    /// Goes on with this input.
    pub fn read(&mut self, input: &'a str) {
        self.rest = input.as_bytes();
    }

    /// How many bytes are left to read.
    pub fn left(&self) -> usize {
        self.rest.len()
    }

    /// Whether the mark comes next.
    pub fn shows(&mut self, mark: u8) -> bool {
        self.rest = self.rest.trim_ascii_start();
        self.rest.first() == Some(&mark)
    }

    /// Reads the mark where it comes next, and says whether it does.
    pub fn takes(&mut self, mark: u8) -> bool {
        self.rest = self.rest.trim_ascii_start();
        match self.rest.split_first() {
            Some((first, rest)) if *first == mark => {
                self.rest = rest;
                true
            }
            _ => false,
        }
    }

    /// Reads the mark, which has to come next.
    pub fn mark(&mut self, mark: u8) {
        if !self.takes(mark) {
            self.fail("a mark is missing");
        }
    }

    /// Whether nothing is left before the next `;`.
    pub fn is_over(&mut self) -> bool {
        self.shows(b';') || self.rest.is_empty()
    }

    /// Nothing but spaces may be left.
    pub fn end(&mut self) {
        if !self.rest.trim_ascii_start().is_empty() {
            self.fail("the input goes on");
        }
    }

    /// A run of letters, digits, `_` and `-`.
    pub fn word(&mut self) -> &'a str {
        let rest = self.rest.trim_ascii_start();
        let len = rest
            .iter()
            .position(|byte| !is_word_byte(*byte))
            .unwrap_or(rest.len());
        let (word, after) = rest.split_at(len);
        self.rest = after;
        if len == 0 {
            self.fail("a word is missing");
        }
        from_utf8(word).unwrap_or("")
    }

    /// A run of anything but spaces.
    pub fn unspaced(&mut self) -> &'a str {
        let rest = self.rest.trim_ascii_start();
        let len = rest
            .iter()
            .position(|byte| *byte == b' ')
            .unwrap_or(rest.len());
        let (word, after) = rest.split_at(len);
        self.rest = after;
        from_utf8(word).unwrap_or("")
    }

    /// A word that is a number of this type. After a fault it is 0.
    pub fn number<N: FromStr + Default>(&mut self) -> N
    where
        N::Err: Drop,
    {
        match self.word().parse::<N>() {
            Ok(number) => number,
            Err(_) => {
                self.fail("a number isn't one, or out of its bounds");
                N::default()
            }
        }
    }

    /// One of eight names, 0 to 7.
    pub fn name(&mut self) -> u8
        ensures { result < 8 }
    {
        let name = self.number::<u8>();
        if name < 8 {
            return name;
        }
        self.fail("a name is 0 to 7");
        0
    }

    /// Milliseconds within the bounds of a time.
    pub fn time(&mut self) -> Time {
        let ms = self.number::<i64>();
        if ms < Time::LEAST_MS || ms > Time::GREATEST_MS {
            self.fail("a time is out of its bounds");
        }
        match Time::new(ms.clamp(Time::LEAST_MS, Time::GREATEST_MS)) {
            Some(time) => time,
            None => unreachable!(),
        }
    }

    /// Offsets `[FROM,TO)`.
    pub fn range(&mut self) -> Range {
        let (from, to) = self.ends::<u64>();
        if from > to {
            self.fail("the ends of a range are the wrong way round");
        }
        Range::between(from, to.max(from))
    }

    /// A window `[START,END)`.
    pub fn span(&mut self) -> Span {
        let (start, end) = self.ends::<i64>();
        if start < end {
            return Span::between(start, end);
        }
        self.fail("a window is empty");
        Span::between(0, 1)
    }

    fn ends<N: FromStr + Default + Drop>(&mut self) -> (N, N)
    where
        N::Err: Drop,
    {
        self.mark(b'[');
        let from = self.number();
        self.mark(b',');
        let to = self.number();
        self.mark(b')');
        (from, to)
    }

    /// Bytes between quotes, with the escapes `\"`, `\\`, `\n`, `\r`, `\t` and `\xNN`.
    pub fn text(&mut self) -> Bytes {
        let mut text = Bytes::new(self.alloc);
        self.mark(b'"');
        for _ in 0..self.rest.len() {
            match self.byte() {
                b'"' => return text,
                byte => self.push_unescaped(byte, &mut text),
            }
        }
        self.fail("a text isn't closed");
        text
    }

    /// All that is left after a space, with the escapes of [`Case::text`].
    pub fn line_rest(&mut self) -> Bytes {
        let mut text = Bytes::new(self.alloc);
        let _space = self.byte();
        for _ in 0..self.rest.len() {
            if self.rest.is_empty() {
                break;
            }
            let byte = self.byte();
            self.push_unescaped(byte, &mut text);
        }
        text
    }

    /// All that is left as pairs of hexadecimal digits.
    pub fn hex(&mut self) -> Bytes {
        let mut bytes = Bytes::new(self.alloc);
        for _ in 0..self.rest.len() {
            self.rest = self.rest.trim_ascii_start();
            if self.rest.is_empty() {
                break;
            }
            let byte = self.hex_byte();
            self.push_to(&mut bytes, &[byte]);
        }
        bytes
    }

    fn byte(&mut self) -> u8 {
        match self.rest.split_first() {
            Some((byte, rest)) => {
                self.rest = rest;
                *byte
            }
            None => {
                self.fail("the input ends too early");
                0
            }
        }
    }

    // The byte, or the one that it and what follows it stand for.
    fn push_unescaped(&mut self, byte: u8, text: &mut Bytes) {
        if byte != b'\\' {
            return self.push_to(text, &[byte]);
        }
        let byte = match self.byte() {
            b'n' => b'\n',
            b'r' => b'\r',
            b't' => b'\t',
            b'x' => self.hex_byte(),
            byte if byte == b'"' || byte == b'\\' => byte,
            _ => {
                self.fail("there is no such escape");
                0
            }
        };
        self.push_to(text, &[byte]);
    }

    fn hex_byte(&mut self) -> u8 {
        let high = digit_of(self.byte());
        let low = digit_of(self.byte());
        match (high, low) {
            (Some(high), Some(low)) => 16 * high + low,
            _ => {
                self.fail("a byte is two hexadecimal digits");
                0
            }
        }
    }
}

/// The runs of a case that reads the first `k` bytes of a text: one for each `k` below the length of that text.
impl<'a> Case<'a> {
    /// The run of this `k`, as new.
    pub fn run_of(alloc: Global, k: usize) -> Case<'a> {
        let mut run = Case::new(alloc);
        run.k = k;
        run
    }

    /// Whether there is a run after this one.
    pub fn goes_on(&self) -> bool {
        self.k < self.longest.saturating_sub(1)
    }

    /// The first `k` bytes of the text.
    pub fn front_of<'t>(&mut self, text: &'t [u8]) -> &'t [u8] {
        self.longest = self.longest.max(text.len());
        &text[..self.k.min(text.len())]
    }

    /// A text, or `first k` and a text, for the first `k` bytes of that one.
    pub fn text_or_front(&mut self) -> Bytes {
        if self.shows(b'"') {
            return self.text();
        }
        if self.word() != "first" || self.word() != "k" {
            self.fail("only the first k bytes of a text can be read");
        }
        let text = self.text();
        let mut front = Bytes::new(self.alloc);
        let part = self.front_of(text.as_slice());
        self.push_to(&mut front, part);
        front
    }

    /// A number, or `k`, or `k+` and a number, for the sum of both.
    pub fn number_or_k(&mut self) -> u64 {
        if !self.takes(b'k') {
            return self.number();
        }
        let more = if self.takes(b'+') { self.number() } else { 0 };
        (self.k as u64).saturating_add(more)
    }
}

/// The answer. Its parts have a space between them.
impl<'a> Case<'a> {
    /// Adds to what is expected.
    pub fn expect(&mut self, expected: &[u8]) {
        if self.expected.extend_from_slice(expected).is_err() {
            self.fail(NO_MEMORY);
        }
    }

    /// What the answer has to be, byte for byte.
    pub fn expected(&self) -> &[u8] {
        self.expected.as_slice()
    }

    /// What was answered, or the fault.
    pub fn got(&self) -> &[u8] {
        match self.fault {
            Some(fault) => fault.as_bytes(),
            None => self.answer.as_slice(),
        }
    }

    /// Whether the answer is the expected one and nothing went wrong.
    pub fn passes(&self) -> bool {
        self.fault.is_none() && self.expected.as_slice() == self.answer.as_slice()
    }

    /// Has `; ` before the next part, where there is one already.
    pub fn next_answer(&mut self) {
        if !self.answer.is_empty() {
            self.separator = b"; ";
        }
    }

    /// The word is the next part.
    pub fn say(&mut self, word: &str) {
        self.say_bytes(word.as_bytes());
    }

    /// The bytes are the next part, as they are.
    pub fn say_bytes(&mut self, part: &[u8]) {
        self.push_answer(self.separator);
        self.push_answer(part);
        self.separator = b" ";
    }

    fn push_answer(&mut self, bytes: &[u8]) {
        if self.answer.extend_from_slice(bytes).is_err() {
            self.fail(NO_MEMORY);
        }
    }

    /// `true` or `false`.
    pub fn say_bool(&mut self, yes: bool) {
        self.say(if yes { "true" } else { "false" });
    }

    /// Decimal digits, with a `-` before a number below 0.
    pub fn say_number<N: Into<i128>>(&mut self, number: N) {
        self.say_bytes(Buffer::new().format(number.into()).as_bytes());
    }

    /// What there is, or `none`.
    pub fn say_some<N: Into<i128> + Drop>(&mut self, number: Option<N>) {
        match number {
            Some(number) => self.say_number(number),
            None => self.say("none"),
        }
    }

    /// Offsets `[FROM,TO)`.
    pub fn say_range(&mut self, range: Range) {
        self.say_ends(range.from(), range.to());
    }

    /// A window `[START,END)`, in milliseconds.
    pub fn say_span(&mut self, span: Span) {
        self.say_ends(span.start(), span.end());
    }

    fn say_ends<N: Into<i128>>(&mut self, from: N, to: N) {
        self.say("[");
        self.separator = b"";
        self.say_number(from);
        self.push_answer(b",");
        self.separator = b"";
        self.say_number(to);
        self.push_answer(b")");
    }

    /// Bytes as the value of them is printed.
    pub fn say_text(&mut self, bytes: &[u8]) {
        self.say("");
        if push_blob(bytes, &mut self.answer).is_err() {
            self.fail(NO_MEMORY);
        }
    }

    /// The value as it is printed.
    pub fn say_value(&mut self, value: &Value) {
        self.say("");
        if push_value(value, &mut self.answer).is_err() {
            self.fail(NO_MEMORY);
        }
    }

    /// Two hexadecimal digits for each byte, in lower case and with nothing between them.
    pub fn say_hex(&mut self, bytes: &[u8]) {
        self.say("");
        for byte in bytes {
            self.push_answer(&[hex_digit(byte / 16), hex_digit(byte % 16)]);
        }
    }
}

const NO_MEMORY: &str = "no memory";

/// What went wrong.
impl<'a> Case<'a> {
    /// The case isn't written in the form of its kind.
    pub fn fail(&mut self, fault: &'static str) {
        if self.fault.is_none() {
            self.fault = Some(fault);
        }
    }

    /// There was no memory for a call or for the case, which is a fault.
    pub fn no_memory(&mut self, _refused: NoMemory) {
        self.fail(NO_MEMORY);
    }

    /// What was made is whole, or there was no memory for it.
    pub fn all_kept(&mut self, made: Result<(), NoMemory>) {
        if let Err(refused) = made {
            self.no_memory(refused);
        }
    }

    /// Adds the item to the list.
    pub fn keep<T: Drop>(&mut self, items: &mut List<T>, item: T) {
        if items.push(item).is_err() {
            self.fail(NO_MEMORY);
        }
    }

    fn push_to(&mut self, text: &mut Bytes, bytes: &[u8]) {
        if text.extend_from_slice(bytes).is_err() {
            self.fail(NO_MEMORY);
        }
    }
}

fn is_word_byte(byte: u8) -> bool {
    byte.is_ascii_alphanumeric() || byte == b'_' || byte == b'-'
}

fn digit_of(byte: u8) -> Option<u8>
    ensures { IfSome result (λ digit. digit < 16) }
{
    match byte {
        b'0'..=b'9' => Some(byte - b'0'),
        b'a'..=b'f' => Some(byte - b'a' + 10),
        _ => None,
    }
}

fn hex_digit(digit: u8) -> u8
    requires { digit < 16 }
{
    if digit < 10 {
        b'0' + digit
    } else {
        b'a' + digit - 10
    }
}
