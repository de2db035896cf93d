//! Lexes texts stage by stage.
//!
//! For each round a line goes to standard error: the bytes; the raw tokens and the time that lexing
//! them took; the leaves, the tokens of the parser's input, and the time that both took. Dropping
//! the leaves and the input is not timed.

use parser_input::edition::Edition;
use parser_input::lexed_str::LexedStr;
use rustc_lexer::tokenize;
use std::io;
use std::time::Instant;

// The counts and times so far.
#[derive(Clone, Copy)]
struct Sum {
    bytes: usize,
    raw_tokens: usize,
    lexing_nanos: u128,
    leaves: usize,
    input_tokens: usize,
    leaves_nanos: u128,
}

impl Sum {
    fn new() -> Sum {
        Sum {
            bytes: 0,
            raw_tokens: 0,
            lexing_nanos: 0,
            leaves: 0,
            input_tokens: 0,
            leaves_nanos: 0,
        }
    }

    // Lexes `text`, and returns these sums with its counts and times added.
    fn with(self, rt: &HostRuntime, text: &str) -> io::Result<Sum> {
        let start = Instant::now(rt)?;
        let (raw_tokens, bytes) = lexed(text);
        let lexing_nanos = start.elapsed(rt)?.as_nanos();
        let start = Instant::now(rt)?;
        let lexed = LexedStr::new(rt.alloc(), Edition::Edition2021, text)?;
        let input = lexed.to_input(rt.alloc())?;
        let leaves_nanos = start.elapsed(rt)?.as_nanos();
        Ok(Sum {
            bytes: self.bytes.wrapping_add(bytes),
            raw_tokens: self.raw_tokens.wrapping_add(raw_tokens),
            lexing_nanos: self.lexing_nanos.wrapping_add(lexing_nanos),
            leaves: self.leaves.wrapping_add(lexed.len()),
            input_tokens: self.input_tokens.wrapping_add(input.len()),
            leaves_nanos: self.leaves_nanos.wrapping_add(leaves_nanos),
        })
    }

    fn print(self, rt: &HostRuntime) -> io::Result<()> {
        let (bytes, raw_tokens, leaves, input_tokens) = (
            self.bytes,
            self.raw_tokens,
            self.leaves,
            self.input_tokens,
        );
        let (lexing, leaving) = (self.lexing_nanos / 1000, self.leaves_nanos / 1000);
        eprintln!(rt;
            "{bytes} bytes, {raw_tokens} raw tokens in {lexing}, {leaves} leaves and {input_tokens} input tokens in {leaving} microseconds"
        )
    }
}

// Returns the number of raw tokens of a text, and the sum of their lengths.
fn lexed(text: &str) -> (usize, usize) {
    let mut count: usize = 0;
    let mut sum: usize = 0;
    for token in tokenize(text) {
        count = count.wrapping_add(1);
        sum = sum.wrapping_add(token.len);
    }
    (count, sum)
}

fn measure(rt: &HostRuntime, texts: &[&str]) -> io::Result<Sum> {
    let mut sum = Sum::new();
    for text in texts {
        sum = sum.with(rt, text)?;
    }
    Ok(sum)
}

/// Lexes the texts `rounds` times, and prints the number of tokens of the parser's input.
pub(crate) fn measure_stages(rt: &HostRuntime, texts: &[&str], rounds: u32) -> io::Result<()> {
    let mut last = 0;
    for _ in 0..rounds {
        let sum = measure(rt, texts)?;
        sum.print(rt)?;
        last = sum.input_tokens;
    }
    println!(rt; "{last}")
}
