//! The rows of the table of figures, in numbers that take their sums and products whole.

ghost use Rattle.std.specs.Prelude.{◌≡◌, ◌<◌, ◌+◌, ◌*◌, ◌^◌};
ghost use Rattle.gl_algebra.specs.FigureTable.{aggregate_figures, at_end, delayed, groups_over, in_step, in_turn, is_fixed, joined, last_of, merged, partitions_over, settled, spaced, spacer_figures, stride_of, windows_over};
ghost use Rattle.gl_algebra.specs.Small.{small_of};
ghost use Rattle.gl_algebra.specs.Wides.{plain, IsNarrow, IsWide};

use crate::figures::Figures;

// Figures while they are computed.
#[derive(Clone, Copy)]
pub(crate) struct Wide {
    pub a: u128,
    pub lt: u128,
    pub le: u128,
    pub nt: u128,
    pub ne: u128,
    pub gt: u128,
    pub ge: u128,
}

// The figures.
pub(crate) fn widened(f: &Figures) -> Wide
    ensures value { plain result ≡ f.now }
    ensures narrow { IsNarrow result }
{
    Wide {
        a: f.a as u128,
        lt: f.lt as u128,
        le: f.le as u128,
        nt: f.nt as u128,
        ne: f.ne as u128,
        gt: f.gt as u128,
        ge: f.ge as u128,
    }
}

// The figures, where each is below 2^32.
pub(crate) fn narrowed(wide: Wide) -> Option<Figures>
    ensures { result ≡ small_of (plain wide) }
{
    let last = wide.a.max(wide.lt).max(wide.le);
    let tuples = wide.nt.max(wide.ne);
    let gap = wide.gt.max(wide.ge);
    if last.max(tuples).max(gap) > 0xffff_ffff {
        return None;
    }
    Some(Figures {
        a: wide.a as u32,
        lt: wide.lt as u32,
        le: wide.le as u32,
        nt: wide.nt as u32,
        ne: wide.ne as u32,
        gt: wide.gt as u32,
        ge: wide.ge as u32,
    })
}

// The product of two counts.
fn times(x: u128, y: u128) -> u128
    requires x { x < 2 ^ 40 }
    requires y { y < 2 ^ 40 }
    ensures value { result ≡ x * y }
    ensures below { result < 2 ^ 80 }
{
    x * y
}

// The last cycle after a beat without the end.
fn last_of(tuples: u128, first: u128, last: u128) -> u128
    ensures { result ≡ last_of tuples first last }
{
    if tuples == 0 { first } else { last }
}

// Where no tuple comes without the end, the last cycle is the first.
pub(crate) fn settled(f: Wide) -> Wide
    ensures { plain result ≡ settled (plain f) }
{
    Wide {
        lt: last_of(f.nt, f.a, f.lt),
        ..f
    }
}

// The figures some cycles later.
pub(crate) fn delayed(cycles: u128, f: Wide) -> Wide
    requires cycles { cycles < 2 ^ 33 }
    requires narrow { IsNarrow f }
    ensures value { plain result ≡ delayed cycles (plain f) }
    ensures wide { IsWide result }
{
    Wide {
        a: f.a + cycles,
        lt: f.lt + cycles,
        le: f.le + cycles,
        ..f
    }
}

// One tuple with the end, the delay later.
pub(crate) fn aggregated(delay: u128, f: Wide) -> Wide
    requires delay { delay < 2 ^ 32 }
    requires narrow { IsNarrow f }
    ensures { plain result ≡ aggregate_figures delay (plain f) }
{
    Wide {
        a: f.a + delay,
        lt: f.a + delay,
        le: f.le + delay,
        nt: 0,
        ne: 1,
        gt: f.gt,
        ge: f.ge.max(f.le.saturating_sub(f.a) + 1),
    }
}

// Two sides that begin together, merged one tuple a cycle, the end last.
pub(crate) fn merged(p: Wide, q: Wide) -> Wide
    requires left { IsWide p }
    requires right { IsWide q }
    ensures { plain result ≡ merged (plain p) (plain q) }
{
    let a = p.a + 1;
    let nt = p.nt + q.nt;
    let lt = last_of(nt, a, p.lt.max(q.lt) + p.nt + q.nt);
    let le = p.le.max(q.le) + p.ne + q.ne + 1;
    Wide {
        a,
        lt,
        le,
        nt,
        ne: p.ne + q.ne,
        gt: p.gt.max(q.gt).max(lt.saturating_sub(a) + 1),
        ge: p.ge.max(q.ge).max(le.saturating_sub(a) + 1),
    }
}

// Two sides, the right one's interval behind the left one's.
pub(crate) fn turned(p: Wide, q: Wide) -> Wide
    requires left { IsWide p }
    requires right { IsWide q }
    ensures { plain result ≡ in_turn (plain p) (plain q) }
{
    let a = p.a + 1;
    let lt = q.lt + 1;
    let le = q.le + 1;
    Wide {
        a,
        lt,
        le,
        nt: p.nt + q.nt,
        ne: p.ne + q.ne,
        gt: p.gt.max(q.gt).max(lt.saturating_sub(a) + 1),
        ge: p.ge.max(q.ge).max(le.saturating_sub(a) + 1),
    }
}

// Whether each tuple and end comes a fixed time after its beat.
fn is_fixed(f: Wide) -> bool
    ensures { result ≡ is_fixed (plain f) }
{
    f.a == f.lt && f.lt == f.le
}

// Two sides in step.
fn in_step(p: Wide, q: Wide) -> Wide
    ensures { plain result ≡ in_step (plain p) (plain q) }
{
    Wide {
        a: p.a,
        lt: p.a,
        le: p.a,
        nt: p.nt,
        ne: p.ne,
        gt: p.gt.max(q.gt),
        ge: p.ge.max(q.ge),
    }
}

// Two sides that give one row with the end.
fn at_end(p: Wide, q: Wide) -> Wide
    requires left { IsWide p }
    requires right { IsWide q }
    ensures { plain result ≡ at_end (plain p) (plain q) }
{
    let a = p.a + 1;
    let le = p.le.max(q.le) + 2;
    Wide {
        a,
        lt: a,
        le,
        nt: 0,
        ne: 1,
        gt: p.gt.max(q.gt),
        ge: p.ge.max(q.ge).max(le.saturating_sub(a) + 1),
    }
}

// Two sides that begin together, side by side.
pub(crate) fn joined(p: Wide, q: Wide) -> Wide
    requires left { IsWide p }
    requires right { IsWide q }
    ensures { plain result ≡ joined (plain p) (plain q) }
{
    let fixed = is_fixed(p) && is_fixed(q);
    if fixed { in_step(p, q) } else { at_end(p, q) }
}

// A spacer of this gap.
pub(crate) fn spacer(gap: u128, f: Wide) -> Wide
    requires gap { gap < 2 ^ 32 }
    requires narrow { IsNarrow f }
    ensures value { plain result ≡ spacer_figures gap (plain f) }
    ensures wide { IsWide result }
{
    let a = f.a + 1;
    let lt = last_of(f.nt, a, f.lt + 1 + times(f.nt.saturating_sub(1), gap));
    let le = f.le + 1 + times(f.ne, gap);
    Wide {
        a,
        lt,
        le,
        nt: f.nt,
        ne: f.ne,
        gt: f.gt.max(lt.saturating_sub(a) + gap),
        ge: f.ge.max(le.saturating_sub(a) + gap),
    }
}

// The source, behind a spacer where one stands.
pub(crate) fn spaced(gap: u128, f: Wide) -> Wide
    requires gap { gap < 2 ^ 32 }
    requires narrow { IsNarrow f }
    ensures value { plain result ≡ spaced gap (plain f) }
    ensures wide { IsWide result }
{
    let needed = 1 < gap && f.a < f.le;
    if needed { spacer(gap, f) } else { f }
}

// The cycles by which the ends of two copies of a body are apart.
fn stride_of(body: Wide) -> u128
    requires { IsNarrow body }
    ensures value { result ≡ stride_of (plain body) }
    ensures below { result < 2 ^ 40 }
{
    body.le.saturating_sub(body.a) + 1
}

// Windows of `copies` copies, over a source that is spaced already.
pub(crate) fn windows_over(copies: u128, f: Wide, body: Wide) -> Wide
    requires copies { copies < 2 ^ 32 }
    requires source { IsWide f }
    requires body { IsNarrow body }
    ensures { plain result ≡ windows_over copies (plain f) (plain body) }
{
    let a = f.a + body.a + 2;
    let ends = times(copies.saturating_sub(1), stride_of(body));
    let nt = times(f.nt, body.ne);
    Wide {
        a,
        lt: last_of(nt, a, f.lt + body.le + 2),
        le: f.le + body.le + ends + 3,
        nt,
        ne: times(f.ne.max(1).saturating_sub(1) + copies, body.ne),
        gt: f.gt.max(f.lt.saturating_sub(f.a) + body.gt.max(body.ge)),
        ge: f.ge.max(f.le.saturating_sub(f.a) + (ends + body.ge + 1)),
    }
}

// So many groups, over a source that is spaced already.
pub(crate) fn groups_over(groups: u128, f: Wide, body: Wide) -> Wide
    requires groups { groups < 2 ^ 32 }
    requires source { IsWide f }
    requires body { IsNarrow body }
    ensures { plain result ≡ groups_over groups (plain f) (plain body) }
{
    let a = f.a + body.a + 2;
    let ends = times(groups.saturating_sub(1), stride_of(body));
    Wide {
        a,
        lt: a,
        le: f.le + body.le + ends + 3,
        nt: 0,
        ne: times(groups, body.ne),
        gt: f.gt.max(f.lt.saturating_sub(f.a) + body.gt),
        ge: f.ge.max(f.le.saturating_sub(f.a) + (ends + (body.ge + 1).max(body.le + 3))),
    }
}

// Windows of each key, of `copies` copies for all keys, over a source that is spaced already.
pub(crate) fn partitions_over(copies: u128, f: Wide, body: Wide) -> Wide
    requires copies { copies < 2 ^ 32 }
    requires source { IsWide f }
    requires body { IsNarrow body }
    ensures { plain result ≡ partitions_over copies (plain f) (plain body) }
{
    let a = f.a + body.a + 2;
    let ends = times(copies, stride_of(body));
    let nt = times(f.nt, body.ne);
    Wide {
        a,
        lt: last_of(nt, a, f.lt + body.le + 2),
        le: f.le + body.le + ends + 3,
        nt,
        ne: times(f.ne.max(1).saturating_sub(1) + copies, body.ne),
        gt: f.gt.max(f.lt.saturating_sub(f.a) + body.gt.max(body.ge)),
        ge: f.ge.max(f.le.saturating_sub(f.a) + (ends + body.ge.max(body.le + 2) + 1)),
    }
}
