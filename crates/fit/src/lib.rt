// Whether a text has a permitted shape, and where it has none, how far its longest start goes that begins one.
#![tactic(auto)]

ghost use Rattle.std.specs.Prelude.{◌≡◌, true, ◌<◌};
ghost use Rattle.ascii.specs.Shapes.{code_shapes};
ghost use Rattle.tag.specs.Forms.{tag_shapes};
ghost use Rattle.fit.specs.Fit.{fit_of};
ghost use Rattle.fit.specs.Inner.{is_start, next_of, permitted, right};

// A state: which one comes next after a digit, -, T, :, . and Z, where a permitted shape goes on so; and whether one may
// end there.
#[derive(Clone, Copy)]
struct State(
    Option<u8>,
    Option<u8>,
    Option<u8>,
    Option<u8>,
    Option<u8>,
    Option<u8>,
    bool,
);

impl State {
    fn next(self, b: u8) -> Option<u8>
        ensures { result ≡ next_of self b }
    {
        let State(digit, dash, t, colon, period, z, _) = self;
        match b {
            b'0'..=b'9' => digit,
            b'-' => dash,
            b'T' => t,
            b':' => colon,
            b'.' => period,
            b'Z' => z,
            _ => None,
        }
    }
}

// The permitted shapes, followed a character at a time. States 0 to 33 are of a full code: so many characters of
// 0000-00-00T00:00:00.000000000000Z, or another start that the same can follow. 34 to 67 are the same of a tag; 68, 69 and
// 70 are the starts "-", ":" and "::" of tags.
static STATES: [State; 71] = [
    State(Some(1), None, None, None, None, None, false),
    State(Some(2), None, None, None, None, None, false),
    State(Some(3), None, None, None, None, None, false),
    State(Some(4), None, None, None, None, None, false),
    State(None, Some(5), None, None, None, None, false),
    State(Some(6), None, None, None, None, None, false),
    State(Some(7), None, None, None, None, None, false),
    State(Some(10), Some(8), None, None, None, None, false),
    State(Some(9), None, None, None, None, None, false),
    State(Some(10), None, None, None, None, None, false),
    State(None, None, Some(11), None, None, None, false),
    State(Some(12), None, None, None, None, None, false),
    State(Some(13), None, None, None, None, None, false),
    State(None, None, None, Some(14), None, None, false),
    State(Some(15), None, None, None, None, None, false),
    State(Some(16), None, None, None, None, None, false),
    State(None, None, None, Some(17), None, None, false),
    State(Some(18), None, None, None, None, None, false),
    State(Some(19), None, None, None, None, None, false),
    State(None, None, None, None, Some(20), Some(33), true),
    State(Some(21), None, None, None, None, None, false),
    State(Some(22), None, None, None, None, Some(33), true),
    State(Some(23), None, None, None, None, Some(33), true),
    State(Some(24), None, None, None, None, Some(33), true),
    State(Some(25), None, None, None, None, Some(33), true),
    State(Some(26), None, None, None, None, Some(33), true),
    State(Some(27), None, None, None, None, Some(33), true),
    State(Some(28), None, None, None, None, Some(33), true),
    State(Some(29), None, None, None, None, Some(33), true),
    State(Some(30), None, None, None, None, Some(33), true),
    State(Some(31), None, None, None, None, Some(33), true),
    State(Some(32), None, None, None, None, Some(33), true),
    State(None, None, None, None, None, Some(33), true),
    State(None, None, None, None, None, None, true),
    State(Some(35), Some(68), None, Some(69), None, None, false),
    State(Some(36), None, None, None, None, None, false),
    State(Some(37), None, None, Some(48), None, Some(67), true),
    State(Some(38), None, None, None, None, None, false),
    State(None, Some(39), None, None, None, None, true),
    State(Some(40), None, None, None, None, None, false),
    State(Some(41), None, None, None, None, None, false),
    State(Some(44), Some(42), None, None, None, None, true),
    State(Some(43), None, None, None, None, None, false),
    State(Some(44), None, None, None, None, None, false),
    State(None, None, Some(45), None, None, None, true),
    State(Some(46), None, None, None, None, None, false),
    State(Some(47), None, None, None, None, None, false),
    State(None, None, None, Some(48), None, Some(67), true),
    State(Some(49), None, None, None, None, None, false),
    State(Some(50), None, None, None, None, None, false),
    State(None, None, None, Some(51), None, Some(67), true),
    State(Some(52), None, None, None, None, None, false),
    State(Some(53), None, None, None, None, None, false),
    State(None, None, None, None, Some(54), Some(67), true),
    State(Some(55), None, None, None, None, None, false),
    State(Some(56), None, None, None, None, Some(67), true),
    State(Some(57), None, None, None, None, Some(67), true),
    State(Some(58), None, None, None, None, Some(67), true),
    State(Some(59), None, None, None, None, Some(67), true),
    State(Some(60), None, None, None, None, Some(67), true),
    State(Some(61), None, None, None, None, Some(67), true),
    State(Some(62), None, None, None, None, Some(67), true),
    State(Some(63), None, None, None, None, Some(67), true),
    State(Some(64), None, None, None, None, Some(67), true),
    State(Some(65), None, None, None, None, Some(67), true),
    State(Some(66), None, None, None, None, Some(67), true),
    State(None, None, None, None, None, Some(67), true),
    State(None, None, None, None, None, None, true),
    State(Some(40), Some(42), None, None, None, None, false),
    State(Some(49), None, None, Some(70), None, None, false),
    State(Some(52), None, None, None, Some(54), None, false),
];

// Where a code begins, and where a tag does.
const CODES: usize = 0;

const TAGS: usize = 34;

// Whether a text has the shape of a full code, or the length of its longest start that begins one.
pub fn code_fit(s: &[u8]) -> Result<(), usize>
    ensures { result ≡ fit_of code_shapes s.now }
{
    judge(s, CODES)
}

// The same of a tag.
pub fn tag_fit(s: &[u8]) -> Result<(), usize>
    ensures { result ≡ fit_of tag_shapes s.now }
{
    judge(s, TAGS)
}

// Follows a text from the state where codes begin, or from that of tags.
#[tactic(auto, using(crate::proofs::States::begins, crate::proofs::States::stops_at, crate::proofs::States::ends_right, crate::proofs::States::ends_wrong))]
fn judge(s: &[u8], start: usize) -> Result<(), usize>
    requires { is_start start ≡ true }
    ensures { result ≡ fit_of (permitted start) s.now }
{
    let mut state = start;
    for (i, &b) in s.iter().enumerate() {
        let Some(next) = at(state).next(b) else {
            return Err(i);
        };
        state = usize::from(next);
    }
    let State(.., may_end) = at(state);
    if may_end { Ok(()) } else { Err(s.len()) }
}

fn at(state: usize) -> State
    requires { state < 71 }
    ensures { right state result ≡ true }
{
    STATES[state]
}
