// A number below 255, or none, in one byte: a table of 64 heights takes 64 bytes, where one of `Option<u8>` takes 128.
#![tactic(auto)]

ghost use Rattle.std.specs.Prelude.{◌≡◌, ◌<◌, Some, None};
ghost use Rattle.byte_option.specs.Bytes.{byte_of};

use std::marker::Model;

// The number; 255 for none.
#[derive(Clone, Copy, PartialEq, Eq, Debug)]
pub struct ByteOption {
    byte: u8,
}

impl Model for ByteOption {
    ghost use Rattle.std.specs.Prelude.{ℕ, Option};
    ghost use Rattle.byte_option.specs.Bytes.{byte_of, option_of, byte_back};

    ghost Value = { Option ℕ };

    ghost view = { λ a. option_of a.byte };

    ghost inverse = { λ v. record { byte = byte_of v } };

    ghost inverse_ok = { λ a h i. record { byte = byte_back a.byte i } };
}

impl ByteOption {
    pub fn none() -> ByteOption
        ensures { result ≡ None }
    {
        ByteOption { byte: 255 }
    }

    pub fn some(x: u8) -> ByteOption
        requires { x < 255 }
        ensures { result ≡ Some x }
    {
        ByteOption { byte: x }
    }

    pub fn get(self) -> Option<u8>
        ensures { result ≡ self }
    {
        if self.byte == 255 {
            None
        } else {
            Some(self.byte)
        }
    }

    // The byte itself, for a caller without options.
    pub fn byte(self) -> u8
        ensures { result ≡ byte_of self }
    {
        self.byte
    }
}
