// The parts of an answer, each behind the one before.
use answer::Refusal;
use image::Fields;
use tree::Clocks;

// An answer's bytes, and how many of them are there. The kind and the refusal number come first. No heap: they are written out whole, with zeros behind the parts.
#[derive(Clone, Copy)]
pub struct Reply {
    pub bytes: [u8; 64],
    len: usize,
}

impl Reply {
    // A refusal number, and nothing behind it yet.
    pub fn numbered(number: u8) -> Reply {
        let mut bytes = [0u8; 64];
        bytes[1] = number;
        Reply { bytes, len: 2 }
    }

    // Accepted, and nothing behind it yet.
    pub fn accepted() -> Reply {
        Reply::numbered(0)
    }

    // One number.
    pub fn of_word(x: u32) -> Reply {
        let mut a = Reply::accepted();
        a.word(x);
        a
    }

    // The six clocks.
    pub fn of_clocks(k: Clocks) -> Reply {
        let mut a = Reply::accepted();
        a.clocks(k);
        a
    }

    // A byte, where the answer has room for it.
    pub fn byte(&mut self, x: u8) {
        if let Some(place) = self.bytes.get_mut(self.len) {
            *place = x;
            self.len += 1;
        }
    }

    pub fn flag(&mut self, x: bool) {
        self.byte(u8::from(x));
    }

    // As many of the bytes as the answer has room for.
    pub fn bytes(&mut self, xs: &[u8]) {
        for x in xs {
            self.byte(*x);
        }
    }

    pub fn word(&mut self, x: u32) {
        self.bytes(&x.to_be_bytes());
    }

    // A code, or two zeros where there is none.
    pub fn code(&mut self, x: Option<u8>) {
        self.flag(x.is_some());
        self.byte(x.unwrap_or(0));
    }

    pub fn clocks(&mut self, k: Clocks) {
        self.word(k.sysclk);
        self.word(k.hclk);
        self.word(k.pclk1);
        self.word(k.pclk2);
        self.word(k.pclk1_tim);
        self.word(k.pclk2_tim);
    }

    // IMAGE of the fields, or zeros where they have none.
    pub fn image(&mut self, fields: Fields) {
        let mut image = [0u8; 8];
        let _ = image::write_image(fields, &mut image);
        self.bytes(&image);
    }
}

// The number of a write: 0 where it is done.
pub fn written(outcome: Result<(), Refusal>, lent: &[u8]) -> Reply {
    let mut a = Reply::numbered(answer::number(outcome));
    a.bytes(lent);
    a
}
