// The lines that answer a turn.
ghost use Rattle.std.specs.Prelude.{◌≡◌, ◌++◌, ◌+◌, ◌≤◌, length, take};
ghost use Rattle.console.specs.Answers.{unread_line, refused_line, value_line, count_text, clips_text, alarm_text, alarms_text, held_line, reply_line};
ghost use Rattle.console.specs.Answers.{cards_line, help_text, said_text, told_text};
ghost use Rattle.refusal.specs.Numbers.{number_of};
ghost use Rattle.steps.specs.Answers.{answer_of};

use super::output::{put, put_bytes, put_card, put_digits, put_number};
use super::turns::{Reply, Said};
use super::unread::Why;
use aberzhan::{Cards, Holding};
use alarm::Alarms;
use refusal::Refusal;
use sample::Clips;

const HELP: &[u8] = b"\
    # start N B SLOT SLOT SLOT SLOT SLOT SLOT [W [VSAG [VSURGE [STICKY [CONFIG]]]]]: N samples an interval, energy buckets of B, six registers to track or 0\n\
    #   W samples in half a cycle, sag and surge levels or 0 (off), and the alarms that stay set: a mask as of reset; left out: 1 0 0 0\n\
    #   CONFIG, 0 to 255, makes the sources IA and IB of S1 and S3: 0x96 has IA S1 and IB S3; left out: 0, by which each is half of -S1 - S3\n\
    # open PORT SERIAL: begins a card; ports are 0 and 1\n\
    # write PORT FIELD VALUE: VOFFS IOFFS VGAIN IGAIN PHASE IRMSOFFS SQUELCH POFFS, or 1 to 8\n\
    # commit PORT: the card is whole and waits for the next interval\n\
    # drop PORT: the card is forgotten\n\
    # block V | S1 | S3: samples of the voltage and of the two current inputs, at most 4,096 a slice\n\
    # reset MASK: clears alarms: 0x200000 sag, 0x200 surge, 0x200200 both\n\
    # hold PORT: keeps the last closed interval; answers its number, its card's serial, \
    how many of its samples of V, of S1 and of S3 were clipped, and both alarms as they are now\n\
    # read PORT REGISTER: of what is held; a name (VA_RMS, WATT_A, WATT_B, PA_POS_CNT, MIN1 ..) or a byte address\n\
    # poll ROOM BYTES: a packet of the serial line, its bytes as two hexadecimal digits each; answers the reply's bytes; ROOM bytes are lent for it\n\
    # cards: the serials of the card in force and of the one that waits\n\
    # help: these lines\n\
    # A terminal cuts a pasted line at 4,095 bytes: send long blocks from a file, or as several blocks.\n\
    # Numbers are decimal, or hexadecimal behind 0x. One space parts two items. A line that begins with # is a comment.\n";

fn unread_line(out: &mut [u8], used: usize, why: Why) -> usize
    requires { used + 64 ≤ length out.old }
    ensures { (take result out.new ≡ take used out.old ++ unread_line why) × (result ≤ used + 64) }
{
    let a = put(out, used, b"UNREAD: ");
    let b = put(out, a, why.words());
    put(out, b, b"\n")
}

fn refused_line(out: &mut [u8], used: usize, refusal: Refusal) -> usize
    requires { used + 80 ≤ length out.old }
    ensures { (take result out.new ≡ take used out.old ++ refused_line (number_of refusal)) × (result ≤ used + 80) }
{
    let a = put(out, used, b"REFUSED ");
    let b = put_number(out, a, refusal.number() as i64);
    let c = put(out, b, b": ");
    let d = put(out, c, refusal.words().as_bytes());
    put(out, d, b"\n")
}

fn value_line(out: &mut [u8], used: usize, v: i64) -> usize
    requires { used + 64 ≤ length out.old }
    ensures { (take result out.new ≡ take used out.old ++ value_line v) × (result ≤ used + 64) }
{
    let a = put(out, used, b"ok ");
    let b = put_number(out, a, v);
    put(out, b, b"\n")
}

// A count, behind a space.
fn put_count(out: &mut [u8], used: usize, count: u32) -> usize
    requires { used + 21 ≤ length out.old }
    ensures { (take result out.new ≡ take used out.old ++ count_text count) × (result ≤ used + 21) }
{
    let a = put(out, used, b" ");
    put_number(out, a, count as i64)
}

// How many samples of V, of S1 and of S3 were clipped.
fn put_clips(out: &mut [u8], used: usize, clips: Clips) -> usize
    requires { used + 63 ≤ length out.old }
    ensures { (take result out.new ≡ take used out.old ++ clips_text clips) × (result ≤ used + 63) }
{
    let a = put_count(out, used, clips.v);
    let b = put_count(out, a, clips.s1);
    put_count(out, b, clips.s3)
}

// An alarm's word where it is set, else `-`.
#[tactic(auto, unfolding(serial::specs::Ascii::ascii))]
fn put_alarm(out: &mut [u8], used: usize, word: &[u8], set: bool) -> usize
    requires { (used + 5 ≤ length out.old) × (length word.now ≤ 5) }
    ensures { (take result out.new ≡ take used out.old ++ alarm_text word.now set) × (result ≤ used + 5) }
{
    if set {
        return put(out, used, word);
    }
    put(out, used, b"-")
}

// Both alarms, a space before each.
fn put_alarms(out: &mut [u8], used: usize, alarms: Alarms) -> usize
    requires { used + 12 ≤ length out.old }
    ensures { (take result out.new ≡ take used out.old ++ alarms_text alarms) × (result ≤ used + 12) }
{
    let a = put(out, used, b" ");
    let b = put_alarm(out, a, b"SAG", alarms.sag);
    let c = put(out, b, b" ");
    put_alarm(out, c, b"SURGE", alarms.surge)
}

// An interval's number, its serial and its counts of clipped samples; and both alarms.
fn held_line(out: &mut [u8], used: usize, h: Holding) -> usize
    requires { used + 112 ≤ length out.old }
    ensures { (take result out.new ≡ take used out.old ++ held_line h.number h.serial h.clips h.alarms) × (result ≤ used + 112) }
{
    let a = put(out, used, b"ok ");
    let b = put_number(out, a, h.number as i64);
    let c = put(out, b, b" ");
    let d = put_digits(out, c, h.serial);
    let e = put_clips(out, d, h.clips);
    let f = put_alarms(out, e, h.alarms);
    put(out, f, b"\n")
}

// The bytes of a reply: as many as it says that it has, but no more than there are.
fn reply_line(out: &mut [u8], used: usize, reply: Reply) -> usize
    requires { used + 768 ≤ length out.old }
    ensures { (take result out.new ≡ take used out.old ++ reply_line reply) × (result ≤ used + 768) }
{
    let bytes = reply.bytes;
    let n = reply.length.min(255);
    let a = put(out, used, b"ok");
    let b = put_bytes(out, a, &bytes[..n]);
    put(out, b, b"\n")
}

// The serials of the card in force and of the one that waits.
fn cards_line(out: &mut [u8], used: usize, cards: Cards) -> usize
    requires { used + 64 ≤ length out.old }
    ensures { (take result out.new ≡ take used out.old ++ cards_line cards.force cards.waiting) × (result ≤ used + 64) }
{
    let a = put(out, used, b"ok ");
    let b = put_card(out, a, cards.force);
    let c = put(out, b, b" ");
    let d = put_card(out, c, cards.waiting);
    put(out, d, b"\n")
}

fn help_lines(out: &mut [u8], used: usize) -> usize
    requires { used + 1600 ≤ length out.old }
    ensures { (take result out.new ≡ take used out.old ++ help_text) × (result ≤ used + 1600) }
{
    put(out, used, HELP)
}

fn said_lines(out: &mut [u8], used: usize, said: Said) -> usize
    requires { used + 1600 ≤ length out.old }
    ensures { (take result out.new ≡ take used out.old ++ said_text said) × (result ≤ used + 1600) }
{
    match said {
        Said::Unread(why) => unread_line(out, used, why),
        Said::Done => put(out, used, b"ok\n"),
        Said::Value(x) => value_line(out, used, x),
        Said::Held(h) => held_line(out, used, h),
        Said::Polled(reply) => reply_line(out, used, reply),
        Said::Cards(cards) => cards_line(out, used, cards),
        Said::Help => help_lines(out, used),
    }
}

// What is said, or the refusal, behind the bytes that are used.
#[tactic(auto, unfolding(crate::specs::Answers::told_text))]
pub(super) fn put_answer(out: &mut [u8], used: usize, answer: Result<Said, Refusal>) -> usize
    requires { used + 1600 ≤ length out.old }
    ensures { (take result out.new ≡ take used out.old ++ told_text (answer_of answer)) × (result ≤ used + 1600) }
{
    match answer {
        Ok(said) => said_lines(out, used, said),
        Err(refusal) => refused_line(out, used, refusal),
    }
}
