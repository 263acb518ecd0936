// Positions in the picture, in tenths of a pixel from its left and upper edge. No mark, tick or bar lies outside its panel.
ghost use Rattle.std.specs.Prelude.{◌≡◌, ◌+◌, ◌-◌, ◌*◌, ◌/◌, ◌<◌, ◌≤◌};
ghost use Rattle.cmd_picture.specs.Panels.{frame_of};

// The panels: late times, with room for the sequence numbers below or taller without; sequence numbers; the share in order by waiting
// time and by buffer; extents.
#[derive(Clone, Copy, Debug, PartialEq, Eq)]
pub(crate) enum Panel {
    LateTimes,
    TallLateTimes,
    Numbers,
    WaitingTime,
    Buffer,
    Extents,
}

// The frame of a panel: its distance from the left and from the upper edge of the picture, its width and its height.
#[derive(Clone, Copy)]
struct Frame {
    pub left: u64,
    pub top: u64,
    pub width: u64,
    pub height: u64,
}

impl Panel {
    // Returns the frame of the panel.
    fn frame(self) -> Frame
        ensures value { result ≡ frame_of self }
        ensures inside { (800 ≤ result.left) × (result.left ≤ 8500) × (2000 ≤ result.top) × (result.top ≤ 7400)
            × (result.width ≤ 6800) × (result.height ≤ 7200) }
    {
        let (left, top, width, height) = match self {
            Panel::LateTimes => (800, 2000, 6800, 3100),
            Panel::TallLateTimes => (800, 2000, 6800, 7200),
            Panel::Numbers => (800, 6000, 6800, 3200),
            Panel::WaitingTime => (8500, 2000, 3300, 1800),
            Panel::Buffer => (8500, 4700, 3300, 1800),
            Panel::Extents => (8500, 7400, 3300, 1800),
        };
        Frame {
            left,
            top,
            width,
            height,
        }
    }

    // Returns how far the panel is from the left edge of the picture.
    pub(crate) fn left(self) -> u64
        ensures value { result ≡ (frame_of self).left }
        ensures inside { (800 ≤ result) × (result ≤ 8500) }
    {
        self.frame().left
    }

    // Returns how far the panel is from the upper edge of the picture.
    pub(crate) fn top(self) -> u64
        ensures value { result ≡ (frame_of self).top }
        ensures inside { (2000 ≤ result) × (result ≤ 7400) }
    {
        self.frame().top
    }

    // Returns the width of the panel.
    pub(crate) fn width(self) -> u64
        ensures value { result ≡ (frame_of self).width }
        ensures inside { result ≤ 6800 }
    {
        self.frame().width
    }

    // Returns the height of the panel.
    pub(crate) fn height(self) -> u64
        ensures value { result ≡ (frame_of self).height }
        ensures inside { result ≤ 7200 }
    {
        self.frame().height
    }

    // Returns the lower end of the panel.
    pub(crate) fn bottom(self) -> u64
        ensures value { result ≡ (frame_of self).top + (frame_of self).height }
        ensures inside { result ≤ 14600 }
    {
        self.top() + self.height()
    }

    // Returns the right end of the panel.
    pub(crate) fn right(self) -> u64
        ensures { result ≡ (frame_of self).left + (frame_of self).width }
    {
        self.left() + self.width()
    }

    // Returns how far from the left edge of the picture `value` is drawn; 0 is at the left of the panel, `span` at its right.
    pub(crate) fn across(self, value: u64, span: u64) -> u64
        ensures lower_bound { ((frame_of self).left ≤ result) × (result ≤ (frame_of self).left + (frame_of self).width) }
        ensures proportion { value < span → span < 281474976710656
            → result ≡ (frame_of self).left + value * (frame_of self).width / span }
    {
        self.left() + scaled(value, span, self.width())
    }

    // Returns how far from the upper edge of the picture `value` is drawn; 0 is at the bottom of the panel, `span` at its top.
    pub(crate) fn down(self, value: u64, span: u64) -> u64
        ensures lower_bound { ((frame_of self).top ≤ result) × (result ≤ (frame_of self).top + (frame_of self).height) }
        ensures inside { (2000 ≤ result) × (result ≤ 14600) }
        ensures proportion { value < span → span < 281474976710656
            → result ≡ (frame_of self).top + ((frame_of self).height - value * (frame_of self).height / span) }
    {
        let height = self.height();
        self.top() + (height - scaled(value, span, height))
    }
}

// Returns `length` * `value` / `span`, at most `length`. From a span of 2^48 on, the last 16 bits of `value` and `span` are ignored.
fn scaled(value: u64, span: u64, length: u64) -> u64
    requires { length ≤ 10000 }
    ensures upper_bound { result ≤ length }
    ensures proportion { value < span → span < 281474976710656 → result ≡ value * length / span }
{
    if span <= value {
        return length;
    }
    if span < 281474976710656 {
        return value * length / span;
    }
    value / 65536 * length / (span / 65536)
}

// Returns the span of an axis for values up to `greatest`, with some room above; `none` if `greatest` is 0.
pub(crate) fn span_for(greatest: u64, none: u64) -> u64 {
    if greatest == 0 {
        return none;
    }
    greatest.saturating_add(greatest / 12 + 1)
}

// Returns the step between the ticks of a span: the least of 1, 2 and 5 times a power of ten that gives at most six ticks above 0.
pub(crate) fn tick_step(span: u64) -> u64
    ensures { 1 ≤ result }
{
    let mut rest = span;
    let mut ten: u64 = 1;
    while 30 < rest {
        if 100_000_000_000_000_000 < ten {
            return ten;
        }
        rest /= 10;
        ten *= 10;
    }
    if rest <= 6 {
        return ten;
    }
    if rest <= 12 {
        return 2 * ten;
    }
    5 * ten
}
