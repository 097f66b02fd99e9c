// The keys of the lines. A line's bytes are the fixed bytes of its key and the rest, which is the value.
ghost use Rattle.std.specs.Prelude.{◌≡◌};
ghost use Rattle.std.specs.Option.{option_map};
ghost use Rattle.lines.specs.Keys.{after, key_bytes};

#[derive(Clone, Copy, Debug, PartialEq, Eq)]
pub enum Key {
    Schools,
    Subjects,
    Lanes,
    Lane,
    List,
    Teachers,
    Home,
    Main,
    Also,
    Wish,
    Points,
    Cost,
}

impl Key {
    // The key with its equals sign.
    pub fn text(self) -> &'static [u8]
        ensures { result.now ≡ key_bytes self }
    {
        match self {
            Key::Schools => b"schools=",
            Key::Subjects => b"subjects=",
            Key::Lanes => b"lanes=",
            Key::Lane => b"lane=",
            Key::List => b"list=",
            Key::Teachers => b"teachers=",
            Key::Home => b"home=",
            Key::Main => b"main=",
            Key::Also => b"also=",
            Key::Wish => b"wish=",
            Key::Points => b"points=",
            Key::Cost => b"cost=",
        }
    }
}

// The value of the line, where the line begins with the key.
pub fn value_of(key: Key, line: &[u8]) -> Option<&[u8]>
    ensures { option_map (λ x. x.now) result ≡ after (key_bytes key) line.now }
{
    line.strip_prefix(key.text())
}
