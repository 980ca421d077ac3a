// The walk (src/read.rs and src/visitor.rs of the Rust): bytes in; events and operands into lent stores, or a numbered refusal with its bit place.
// A block's walk calls itself with one level less to go. Tables and stores are lent all the way down; what goes along by value is small.
#![tactic(auto)]

ghost use Rattle.std.specs.Prelude.{◌≡◌, List, [], ◌∷◌, ◌++◌, true, false, ℕ, ◌+◌, ◌-◌, ◌*◌, ◌/◌, ◌%◌, ◌≤◌, ◌<◌, min, length, take, replicate};
ghost use Rattle.terms.specs.Limits.{event_size, max_shared, max_local};
ghost use Rattle.bits.specs.Bits.{limit, read, vbr};
ghost use Rattle.bits.specs.Told.{Gives, of_read};
ghost use Rattle.bitcode.specs.Scalar.{value};
ghost use Rattle.bitcode.specs.declared.ScalarOperand.TheVariants.{Char6};
ghost use Rattle.abbrev.specs.Abbrev.{array, blob};
ghost use Rattle.abbrev.specs.Tables.{row_size, slot_count, Tables, slots, abbrev_of, Kept};
ghost use Rattle.walk.specs.Record.{repeated, array_kind};
ghost use Rattle.walk.specs.Walk.{walked};
ghost use Rattle.walk.specs.declared.Block.{Block};
ghost use Rattle.walk.specs.Numbers.{numbers_of};
ghost use Rattle.walk.specs.Promises.{placed_at, held, Written, ReadsEach, frame, Sits, Stands, Behind, Passing, Entering, DoesNext, DoesNumber, DoesHead, Is, Runs, Scalars, Recorded, plain, abbreviated, load, Loaded, blob_bytes, head_length, head_width, head_fits, Heads, Tells, Streams, Denies, Accepts, answer};

use abbrev::{ARRAY_SHAPE, AbbrevNumber, Abbreviations, BlockNumber, LOCAL, ROW, SLOTS};
use bitcode::{ScalarOperand, Signature};
use bits::Cursor;
use terms::{EVENT_SIZE, MAX_INPUT, MAX_LOCAL, MAX_OPEN, MAX_SHARED, Reason, Refused};

// The number that records of the top level carry.
const TOP_LEVEL_BLOCK_ID: u64 = 0xFFFF_FFFF;

// The event kinds: numbers, since an event is eight numbers of the lent store, and C reads them there.
pub const ENTER: u64 = 1;

pub const LEAVE: u64 = 2;

pub const RECORD: u64 = 3;

pub const SKIP: u64 = 4;

// The payload kinds, numbers of the same store: the values of an array, of Char6 or of any other element, lie in the operand store, the bytes of a
// blob in the input.
pub const NO_PAYLOAD: u64 = 0;

pub const ARRAY: u64 = 1;

pub const CHAR6: u64 = 2;

pub const BLOB: u64 = 3;

// An accepted walk: the header numbers; and how many events and operands the stores hold.
#[derive(Clone, Copy, Debug, PartialEq, Eq)]
pub struct Accepted {
    pub header: Signature,
    pub events: u64,
    pub operands: u64,
}

// What a walk tells, in numbers, as document 01 lists them and a program in C gets them: 0 or the refusal's number, its place in bits of the stream
// and its details; the header numbers; and how many events and operands the stores hold.
#[derive(Clone, Copy, Debug, PartialEq, Eq)]
pub struct Walked {
    pub status: u64,
    pub place: u64,
    pub first: u64,
    pub second: u64,
    pub header: Signature,
    pub events: u64,
    pub operands: u64,
}

// How far the walk has come: the next bit, how many numbers each store holds, and how many shared and local abbreviations the tables hold.
#[derive(Clone, Copy)]
struct Marks {
    at: u64,
    events: usize,
    operands: usize,
    shared: usize,
    local: usize,
}

// A block's frame: its number and width, its end in bytes, the levels to go below it, whether it is the top level, and how many local
// abbreviations the blocks around it have.
#[derive(Clone, Copy)]
struct Frame {
    number: u64,
    width: u64,
    end: u64,
    left: u64,
    top: bool,
    base: usize,
}

// The block that is walked: the stream and the skip list, the shared rows that were for the block when it was entered, and its frame.
#[derive(Clone, Copy)]
struct Block<'a> {
    stream: &'a [u8],
    skip: &'a [u64],
    own: &'a [u8],
    frame: Frame,
}

// A record as it was read: its code, how many operands, its payload's kind, place and length, and the operand store's fill mark behind it.
#[derive(Clone, Copy)]
struct RecordRead {
    code: u64,
    count: u64,
    kind: u64,
    at: u64,
    length: u64,
    fill: usize,
}

// A block's head whose body fits: number, width, and length in bytes.
#[derive(Clone, Copy)]
struct BlockHead {
    block: u64,
    width: u64,
    length: u64,
}

// An item: the walk goes on; or it goes into a block; or the block ends.
#[derive(Clone, Copy)]
enum Step {
    Go(Marks),
    Into(Marks, BlockHead),
    End(Marks),
}

impl From<Result<Accepted, Refused>> for Walked {
    ghost from_gives = { λ r w. w ≡ numbers_of r };

    fn from(walked: Result<Accepted, Refused>) -> Walked {
        match walked {
            Ok(a) => Walked {
                status: 0,
                place: 0,
                first: 0,
                second: 0,
                header: a.header,
                events: a.events,
                operands: a.operands,
            },
            Err(r) => {
                let (first, second) = r.reason.details();
                Walked {
                    status: r.reason.number(),
                    place: r.place,
                    first,
                    second,
                    header: Signature::default(),
                    events: 0,
                    operands: 0,
                }
            }
        }
    }
}

impl Frame {
    // A block nested in this one, at the marks behind its enter event.
    fn inside(self, m: Marks, head: BlockHead) -> Frame
        requires { (0 < self.left) × (m.at / 8 + head.length < 18446744073709551616) }
        ensures { result ≡ frame head.block head.width (m.at / 8 + head.length) (self.left - 1) m.local }
    {
        Frame {
            number: head.block,
            width: head.width,
            end: m.at / 8 + head.length,
            left: self.left - 1,
            top: false,
            base: m.local,
        }
    }
}

impl Marks {
    // What a part of the item that begins here answers: a refusal gets the item's place.
    fn placed<T>(self, answer: Result<T, Reason>) -> Result<T, Refused>
        ensures { result ≡ placed_at self.at answer }
    {
        match answer {
            Ok(x) => Ok(x),
            Err(reason) => Err(Refused {
                reason,
                place: self.at,
            }),
        }
    }
}

// Writes one event's numbers, where there is room for them.
fn put_event(events: &mut [u64], at: usize, entry: [u64; EVENT_SIZE]) -> Result<(), Reason>
    requires { at ≤ length events.old }
    ensures { Written at entry events.old events.new result }
{
    if events.len() - at < EVENT_SIZE {
        return Err(Reason::NoEventRoom);
    }
    events[at..at + EVENT_SIZE].copy_from_slice(&entry);
    Ok(())
}

// So many operands, each read by `next`, into the part of the operand store that is not filled: as many as have room, and then a refusal if more are
// wanted. LLVM gets a loop for each kind of operand out of it: in one for all, it would call the reader for each operand, and such a call takes longer
// than the reading.
fn fill<F: Fn(Cursor) -> Result<(u64, Cursor), Reason>>(
    next: F,
    c0: Cursor,
    count: u64,
    rest: &mut [u64],
) -> Result<Cursor, Reason>
    requires { F.IsAlwaysCallable next }
    ensures { (s : List ℕ) (k : ScalarOperand) → ReadsEach (F.post next) s k → Runs c0 s (repeated (length rest.old) count k) count rest.new result }
{
    let n = count.min(rest.len() as u64) as usize;
    let mut c = c0;
    for i in 0..n {
        let (v, d) = next(c)?;
        rest[i] = v;
        c = d;
    }
    if (n as u64) < count {
        return Err(Reason::NoOperandRoom);
    }
    Ok(c)
}

// So many operands of one kind, into the part of the operand store that is not filled.
fn fill_run(
    c: Cursor,
    s: &[u8],
    k: ScalarOperand,
    count: u64,
    rest: &mut [u64],
) -> Result<Cursor, Reason>
    ensures { Runs c s.now (repeated (length rest.old) count k) count rest.new result }
{
    match k {
        ScalarOperand::Literal(v) => fill(
            move |c: Cursor|
                ensures { result ≡ Ok (v, c) }
            { Ok((v, c)) },
            c,
            count,
            rest,
        ),
        ScalarOperand::Fixed(w) => fill(
            move |c: Cursor|
                ensures { Gives c s.entry.now (read w) (of_read result) }
            { c.read(s, w) },
            c,
            count,
            rest,
        ),
        ScalarOperand::Vbr(w) => fill(
            move |c: Cursor|
                ensures { Gives c s.entry.now (vbr w) (of_read result) }
            { c.read_vbr(s, w) },
            c,
            count,
            rest,
        ),
        ScalarOperand::Char6 => fill(
            move |c: Cursor|
                ensures { Gives c s.entry.now (value Char6) (of_read result) }
            { bitcode::read_char6(c, s) },
            c,
            count,
            rest,
        ),
    }
}

// A record with no abbreviation: code, count and operands, vbr6.
fn read_unabbreviated(
    c: Cursor,
    s: &[u8],
    operands: &mut [u64],
    fill: usize,
) -> Result<(RecordRead, Cursor), Reason>
    requires { fill ≤ length operands.old }
    ensures { Recorded c s.now (plain (length operands.old - fill)) fill operands.old operands.new result }
{
    let (code, d) = c.read_vbr(s, 6)?;
    let (count, g) = d.read_vbr(s, 6)?;
    let end = fill_run(g, s, ScalarOperand::Vbr(6), count, &mut operands[fill..])?;
    let r = RecordRead {
        code,
        count,
        kind: NO_PAYLOAD,
        at: 0,
        length: 0,
        fill: fill + count as usize,
    };
    Ok((r, end))
}

// The code and the scalar operands of a record, `count` numbers by the kinds that stand in the slots from `base` on: the code is handed back, the
// others go into the part of the operand store that is not filled. The code is not read apart from the others, so that LLVM has one call of the
// reader to inline.
fn fill_scalars(
    c0: Cursor,
    s: &[u8],
    tables: &Abbreviations,
    base: usize,
    count: usize,
    rest: &mut [u64],
) -> Result<(u64, Cursor), Reason>
    requires { (base + count ≤ slot_count) × (0 < count) }
    ensures { Scalars c0 s.now (length rest.old) (slots tables.now.kinds tables.now.widths base count) count rest.new result }
{
    let mut c = c0;
    let mut code: u64 = 0;
    for i in 0..count {
        if rest.len() < i {
            return Err(Reason::NoOperandRoom);
        }
        let k = abbrev::scalar_operand(tables.kinds[base + i], tables.widths[base + i]);
        let (v, d) = bitcode::read_scalar_operand(c, s, k)?;
        if i == 0 {
            code = v;
        } else {
            rest[i - 1] = v;
        }
        c = d;
    }
    Ok((code, c))
}

// An array's kind of payload.
fn array_kind(k: ScalarOperand) -> u64
    ensures { result ≡ array_kind k }
{
    match k {
        ScalarOperand::Char6 => CHAR6,
        _ => ARRAY,
    }
}

// An array: its length, vbr6, then its elements behind the operands of the record so far.
fn read_array(
    c: Cursor,
    s: &[u8],
    k: ScalarOperand,
    operands: &mut [u64],
    r: RecordRead,
) -> Result<(RecordRead, Cursor), Reason>
    requires { r.fill ≤ length operands.old }
    ensures { Loaded c s.now (load (length operands.old - r.fill) (array k)) operands.old operands.new r result }
{
    let (length, d) = c.read_vbr(s, 6)?;
    let end = fill_run(d, s, k, length, &mut operands[r.fill..])?;
    let read = RecordRead {
        kind: array_kind(k),
        at: r.fill as u64,
        length,
        fill: r.fill + length as usize,
        ..r
    };
    Ok((read, end))
}

// A blob's bytes, from a byte's first bit on, and to a multiple of 32 bits.
fn read_blob_bytes(
    c: Cursor,
    s: &[u8],
    size: u64,
    r: RecordRead,
) -> Result<(RecordRead, Cursor), Reason>
    requires { c.at % 8 ≡ 0 }
    ensures { (ops : List ℕ) → r.fill ≤ length ops → Loaded c s.now (blob_bytes size) ops ops r result }
{
    let d = c.skip_bytes(s, size)?;
    let end = d.align32(s)?;
    let read = RecordRead {
        kind: BLOB,
        at: c.at / 8,
        length: size,
        ..r
    };
    Ok((read, end))
}

// A blob: its length, vbr6, to a multiple of 32 bits, and its bytes.
fn read_blob(c: Cursor, s: &[u8], r: RecordRead) -> Result<(RecordRead, Cursor), Reason>
    ensures { (left : ℕ) (ops : List ℕ) → r.fill ≤ length ops → Loaded c s.now (load left blob) ops ops r result }
{
    let (n, d) = c.read_vbr(s, 6)?;
    let g = d.align32(s)?;
    read_blob_bytes(g, s, n, r)
}

// A record by the abbreviation of a row: its slots begin at `base`.
fn read_abbreviated(
    c: Cursor,
    s: &[u8],
    tables: &Abbreviations,
    base: usize,
    shape: u64,
    operands: &mut [u64],
    fill: usize,
) -> Result<(RecordRead, Cursor), Reason>
    requires { (base + row_size ≤ slot_count) × (fill ≤ length operands.old) }
    ensures { Recorded c s.now (abbreviated (length operands.old - fill) (abbrev_of tables.now.kinds tables.now.widths base shape)) fill operands.old operands.new result }
{
    let n = (shape % ARRAY_SHAPE) as usize;
    if n == 0 {
        return Err(Reason::InvalidAbbrev);
    }
    let (code, g) = fill_scalars(c, s, tables, base, n, &mut operands[fill..])?;
    let r = RecordRead {
        code,
        count: (n - 1) as u64,
        kind: NO_PAYLOAD,
        at: 0,
        length: 0,
        fill: fill + (n - 1),
    };
    match shape / ARRAY_SHAPE {
        0 => Ok((r, g)),
        1 => {
            let k = abbrev::scalar_operand(tables.kinds[base + n], tables.widths[base + n]);
            read_array(g, s, k, operands, r)
        }
        _ => read_blob(g, s, r),
    }
}

// The end of a head: the body's length in words; the body must lie within the parent.
fn read_body_length(
    c: Cursor,
    s: &[u8],
    block: u64,
    width: u64,
) -> Result<(BlockHead, Cursor), Reason>
    ensures { Heads c s.now (head_length block width) result }
{
    let (n, d) = c.read(s, 32)?;
    if d.unconsumed_bit_len(s) / 32 < n {
        return Err(Reason::BufferOverflow);
    }
    let head = BlockHead {
        block,
        width,
        length: 4 * n,
    };
    Ok((head, d))
}

// A head behind its block number: width, vbr4, to a multiple of 32 bits, and the body's length.
fn read_head_width(c: Cursor, s: &[u8], block: u64) -> Result<(BlockHead, Cursor), Reason>
    ensures { Heads c s.now (head_width block) result }
{
    let (width, d) = c.read_vbr(s, 4)?;
    let g = d.align32(s)?;
    read_body_length(g, s, block, width)
}

// A block's head, whose body lies within its parent.
fn read_head(c: Cursor, s: &[u8]) -> Result<(BlockHead, Cursor), Reason>
    ensures { Heads c s.now head_fits result }
{
    let (block, d) = c.read_vbr(s, 8)?;
    if 0x1_0000_0000 <= block {
        return Err(Reason::BlockNumberTooLarge(block));
    }
    read_head_width(d, s, block)
}

impl<'a> Block<'a> {
    // At the end of the bits: the top level ends; a block has no end mark.
    fn end_of(&self, m: Marks) -> Result<Step, Reason>
        requires { limit self.now.stream.now self.now.frame.end ≤ m.at }
        ensures { (ev ops : List ℕ) (t : Tables) → Stands self.now m ev ops → DoesNext self.now m t t ev ev ops ops (placed_at m.at result) }
    {
        let f = self.frame;
        if f.top {
            return Ok(Step::End(Marks { local: f.base, ..m }));
        }
        Err(Reason::MissingEndBlock(f.number))
    }

    // Number 0: align, and leave.
    fn leave(&self, m: Marks, d: Cursor, events: &mut [u64]) -> Result<Step, Reason>
        requires { (m.events ≤ length events.old) × Behind self.now d }
        ensures { (ops : List ℕ) (t : Tables) → DoesNumber self.now m 0 d t t events.old events.new ops ops (placed_at m.at result) }
    {
        let g = d.align32(self.stream)?;
        let behind = Marks {
            at: g.at,
            local: self.frame.base,
            ..m
        };
        if self.frame.top {
            return Ok(Step::End(behind));
        }
        put_event(
            events,
            m.events,
            [LEAVE, self.frame.number, 0, 0, 0, 0, 0, 0],
        )?;
        let events = m.events + EVENT_SIZE;
        Ok(Step::End(Marks { events, ..behind }))
    }

    // A BLOCKINFO: what it adds stands in the shared rows behind it, and it gives no event.
    fn read_info(
        &self,
        m: Marks,
        head: BlockHead,
        g: Cursor,
        tables: &mut Abbreviations,
    ) -> Result<Step, Refused>
        requires in_range { (m.shared ≤ max_shared) × (m.local ≤ max_local) × (g.at + 8 * head.length ≤ 18446744073709551615) }
        requires zero { head.block ≡ 0 }
        ensures kept { Kept m.shared m.local (held tables.old) (held tables.new) }
        ensures does { (ev ops : List ℕ) → DoesHead self.now m head g (held tables.old) (held tables.new) ev ev ops ops result }
    {
        let c = Cursor {
            at: g.at,
            end: g.at / 8 + head.length,
        };
        let shared = abbrev::read_block_info_block(
            c,
            self.stream,
            head.width,
            &mut tables.kinds,
            &mut tables.widths,
            &mut tables.shapes,
            &mut tables.owners,
            m.shared,
        )?;
        Ok(Step::Go(Marks {
            at: g.at + 8 * head.length,
            shared,
            ..m
        }))
    }

    // A block that is entered, up to its body.
    fn open_block(
        &self,
        m: Marks,
        head: BlockHead,
        g: Cursor,
        events: &mut [u64],
    ) -> Result<Step, Reason>
        requires { (m.events ≤ length events.old) × Entering self.now head × (g.at + 8 * head.length ≤ limit self.now.stream.now self.now.frame.end) }
        ensures { (ops : List ℕ) (t : Tables) → DoesHead self.now m head g t t events.old events.new ops ops (placed_at m.at result) }
    {
        if self.frame.left == 0 {
            return Err(Reason::TooDeep(head.block));
        }
        let e = [
            ENTER,
            head.block,
            head.width,
            g.at / 8,
            head.length,
            0,
            0,
            0,
        ];
        put_event(events, m.events, e)?;
        let inside = Marks {
            at: g.at,
            events: m.events + EVENT_SIZE,
            ..m
        };
        Ok(Step::Into(inside, head))
    }

    // Number 1: a nested block, up to its body.
    fn enter_sub_block(
        &self,
        m: Marks,
        d: Cursor,
        tables: &mut Abbreviations,
        events: &mut [u64],
    ) -> Result<Step, Refused>
        requires in_range { (m.events ≤ length events.old) × (m.shared ≤ max_shared) × (m.local ≤ max_local) × Behind self.now d }
        ensures kept { Kept m.shared m.local (held tables.old) (held tables.new) }
        ensures does { (ops : List ℕ) → DoesNumber self.now m 1 d (held tables.old) (held tables.new) events.old events.new ops ops result }
    {
        let (head, g) = m.placed(read_head(d, self.stream))?;
        if head.block == 0 {
            return self.read_info(m, head, g, tables);
        }
        if self.skip.contains(&head.block) {
            return m.placed(pass_over(m, head, g, events));
        }
        m.placed(self.open_block(m, head, g, events))
    }

    // Number 2: a local definition. It is read into the next local row; its room is tested behind it.
    fn define_local(&self, m: Marks, d: Cursor, tables: &mut Abbreviations) -> Result<Step, Reason>
        requires in_range { (m.shared ≤ max_shared) × (m.local ≤ max_local) × Behind self.now d }
        ensures kept { Kept m.shared m.local (held tables.old) (held tables.new) }
        ensures does { (ev ops : List ℕ) → DoesNumber self.now m 2 d (held tables.old) (held tables.new) ev ev ops ops (placed_at m.at result) }
    {
        let row = LOCAL + m.local;
        let (shape, g) = abbrev::define_abbrev(
            d,
            self.stream,
            &mut tables.kinds,
            &mut tables.widths,
            row,
        )?;
        if MAX_LOCAL <= m.local {
            return Err(Reason::NoAbbreviationRoom);
        }
        tables.shapes[row] = shape;
        Ok(Step::Go(Marks {
            at: g.at,
            local: m.local + 1,
            ..m
        }))
    }

    // A record's event, where there is room for one.
    fn tell_record(
        &self,
        m: Marks,
        r: RecordRead,
        at: u64,
        events: &mut [u64],
    ) -> Result<Step, Reason>
        requires { m.events ≤ length events.old }
        ensures { Tells self.now.frame m r at events.old events.new result }
    {
        let first = m.operands as u64;
        let e = [
            RECORD,
            self.frame.number,
            r.code,
            first,
            r.count,
            r.kind,
            r.at,
            r.length,
        ];
        put_event(events, m.events, e)?;
        Ok(Step::Go(Marks {
            at,
            events: m.events + EVENT_SIZE,
            operands: r.fill,
            ..m
        }))
    }

    // Number 3: a record with no abbreviation.
    fn record_plain(
        &self,
        m: Marks,
        d: Cursor,
        events: &mut [u64],
        operands: &mut [u64],
    ) -> Result<Step, Reason>
        requires { Stands self.now m events.old operands.old × Behind self.now d }
        ensures { (t : Tables) → DoesNumber self.now m 3 d t t events.old events.new operands.old operands.new (placed_at m.at result) }
    {
        let (r, g) = read_unabbreviated(d, self.stream, operands, m.operands)?;
        self.tell_record(m, r, g.at, events)
    }

    // A number from 4 on: a record by its abbreviation.
    fn record_abbreviated(
        &self,
        m: Marks,
        n: u64,
        d: Cursor,
        tables: &Abbreviations,
        events: &mut [u64],
        operands: &mut [u64],
    ) -> Result<Step, Reason>
        requires stands { Stands self.now m events.old operands.old × Behind self.now d × (4 ≤ n) }
        ensures { DoesNumber self.now m n d (held tables.now) (held tables.now) events.old events.new operands.old operands.new (placed_at m.at result) }
    {
        let block = BlockNumber(self.frame.number);
        let row = abbrev::look_up(block, AbbrevNumber(n), self.own, self.frame.base, m.local)?;
        let shape = tables.shapes[row];
        let (r, g) = read_abbreviated(
            d,
            self.stream,
            tables,
            ROW * row,
            shape,
            operands,
            m.operands,
        )?;
        self.tell_record(m, r, g.at, events)
    }

    // The next item of the block.
    fn try_next(
        &self,
        m: Marks,
        tables: &mut Abbreviations,
        ev: &mut [u64],
        ops: &mut [u64],
    ) -> Result<Step, Refused>
        requires stands { Stands self.now m ev.old ops.old }
        ensures kept { Kept m.shared m.local (held tables.old) (held tables.new) }
        ensures does { DoesNext self.now m (held tables.old) (held tables.new) ev.old ev.new ops.old ops.new result }
    {
        let c = Cursor {
            at: m.at,
            end: self.frame.end,
        };
        if c.is_at_end(self.stream) {
            return m.placed(self.end_of(m));
        }
        let (n, d) = m.placed(abbrev::read_number(c, self.stream, self.frame.width))?;
        match n {
            0 => m.placed(self.leave(m, d, ev)),
            1 => self.enter_sub_block(m, d, tables, ev),
            2 => m.placed(self.define_local(m, d, tables)),
            3 => m.placed(self.record_plain(m, d, ev, ops)),
            _ => m.placed(self.record_abbreviated(m, n, d, tables, ev, ops)),
        }
    }
}

// A block of the skip list: a skip event, and its body stays unread.
fn pass_over(m: Marks, head: BlockHead, g: Cursor, events: &mut [u64]) -> Result<Step, Reason>
    requires { (m.events ≤ length events.old) × (g.at + 8 * head.length ≤ 18446744073709551615) }
    ensures { (b : Block) (ops : List ℕ) (t : Tables) → Passing b head → DoesHead b m head g t t events.old events.new ops ops (placed_at m.at result) }
{
    let e = [SKIP, head.block, head.width, g.at / 8, head.length, 0, 0, 0];
    put_event(events, m.events, e)?;
    Ok(Step::Go(Marks {
        at: g.at + 8 * head.length,
        events: m.events + EVENT_SIZE,
        ..m
    }))
}

// A block's body from the marks on: it starts with the shared abbreviations that are for it now, and no local one of its own. The parent goes on
// behind the declared length, whatever the body left.
fn visit_block(
    s: &[u8],
    skip: &[u64],
    f: Frame,
    m: Marks,
    tables: &mut Abbreviations,
    ev: &mut [u64],
    ops: &mut [u64],
) -> Result<Marks, Refused>
    requires sits { Sits (length ev.old) (length ops.old) f m × (m.local ≡ f.base) }
    ensures kept { Kept m.shared m.local (held tables.old) (held tables.new) }
    ensures is { Is s.now skip.now f m (held tables.old) (held tables.new) ev.old ev.new ops.old ops.new result }
{
    let mut rows = [0u8; MAX_SHARED];
    let many = abbrev::shared_rows(BlockNumber(f.number), &tables.owners, m.shared, &mut rows);
    let block = Block {
        stream: s,
        skip,
        own: &rows[0..many],
        frame: f,
    };
    let mut st = m;
    loop {
        let step = block.try_next(st, tables, ev, ops)?;
        match step {
            Step::Go(t) => {
                st = t;
            }
            Step::Into(t, head) => {
                let inner = f.inside(t, head);
                let u = visit_block(s, skip, inner, t, tables, ev, ops)?;
                st = Marks {
                    at: t.at + 8 * head.length,
                    ..u
                };
            }
            Step::End(t) => {
                return Ok(t);
            }
        }
    }
}

// The whole stream: the top level, with no abbreviation.
fn walk_stream(
    s: &[u8],
    skip: &[u64],
    events: &mut [u64],
    operands: &mut [u64],
) -> Result<Marks, Refused>
    ensures { Streams s.now skip.now events.old events.new operands.old operands.new result }
{
    let mut tables = Abbreviations::new();
    let f = Frame {
        number: TOP_LEVEL_BLOCK_ID,
        width: 2,
        end: s.len() as u64,
        left: MAX_OPEN,
        top: true,
        base: 0,
    };
    let m = Marks {
        at: 0,
        events: 0,
        operands: 0,
        shared: tables.shared,
        local: tables.local,
    };
    visit_block(s, skip, f, m, &mut tables, events, operands)
}

// Zero from a place on.
fn clear(store: &mut [u64], from: usize)
    requires { from ≤ length store.old }
    ensures { store.new ≡ take from store.old ++ replicate (length store.old - from) 0 }
{
    store[from..].fill(0);
}

// A refused walk: both stores all zero.
fn deny(refused: Refused, events: &mut [u64], operands: &mut [u64]) -> Result<Accepted, Refused>
    ensures { Denies refused (length events.old) (length operands.old) result events.new operands.new }
{
    clear(events, 0);
    clear(operands, 0);
    Err(refused)
}

// An accepted walk: zero behind the last event and operand.
fn accept(
    header: Signature,
    m: Marks,
    events: &mut [u64],
    operands: &mut [u64],
) -> Result<Accepted, Refused>
    requires { (m.events ≤ length events.old) × (m.operands ≤ length operands.old) }
    ensures { Accepts header m events.old operands.old result events.new operands.new }
{
    clear(events, m.events);
    clear(operands, m.operands);
    Ok(Accepted {
        header,
        events: (m.events / EVENT_SIZE) as u64,
        operands: m.operands as u64,
    })
}

// The walk of an input, with the numbers of the blocks to skip and the two stores lent.
pub fn walk(
    input: &[u8],
    skip: &[u64],
    events: &mut [u64],
    operands: &mut [u64],
) -> Result<Accepted, Refused>
    ensures answer { numbers_of result ≡ answer (walked input.now skip.now (length events.old) (length operands.old)) }
    ensures events { events.new ≡ (walked input.now skip.now (length events.old) (length operands.old)).event_store }
    ensures operands { operands.new ≡ (walked input.now skip.now (length events.old) (length operands.old)).operand_store }
{
    if MAX_INPUT < input.len() as u64 {
        return deny(Reason::InputTooLong.at(0), events, operands);
    }
    match Signature::parse(input) {
        Err(reason) => deny(reason.at(0), events, operands),
        Ok(h) => match walk_stream(Signature::stream(input), skip, events, operands) {
            Err(refused) => deny(refused, events, operands),
            Ok(m) => accept(h, m, events, operands),
        },
    }
}
