// Words that lines load, each line's behind those that are loaded. What finds no room is passed over.
use wire::Line;
use wire::words::Words;

// Words of settings, of detections, twenty each, and of a frame's name. A line has four, and there is room for whole lines.
#[derive(Drop)]
pub struct Loads {
    pub settings: Words<28>,
    pub seen: Words<1280>,
    pub frame: [u64; 4],
}

pub fn nothing() -> Loads {
    Loads {
        settings: Words::new(0),
        seen: Words::new(0),
        frame: [0; 4],
    }
}

fn push_all<const N: usize>(words: &mut Words<N>, numbers: [u64; 4]) {
    for number in numbers {
        words.push(number);
    }
}

pub fn is_load(letter: u8) -> bool {
    matches!(letter, b's' | b'd' | b'f')
}

// A line s, d or f.
pub fn load(l: &mut Loads, line: Line) {
    let numbers = line.numbers;
    match line.letter {
        b's' => push_all(&mut l.settings, numbers),
        b'd' => push_all(&mut l.seen, numbers),
        _ => l.frame = numbers,
    }
}

// After a call the words that it took are not loaded any more.
pub fn after(l: &mut Loads, letter: u8) {
    match letter {
        b'n' => l.settings.clear(),
        b'b' => l.seen.clear(),
        _ => {}
    }
}
