ghost use Rattle.std.specs.Prelude.{◌≡◌, ℕ, List, Option, OnOk, OnErr};
ghost use Rattle.std.specs.Io.KnownBytes.{Appends, Keeps};
ghost use Rattle.er_answers.specs.declared.question.Answer.TheVariants.{Accepted, Refused};
ghost use Rattle.er_cli.specs.Texts.{answer_text, told_text, AppendsPart};

use er_answers::Answer;
use er_event::Refusal;
use er_paper::ShortText;
use std::io::Write;

/// The answer to a line of a script.
#[derive(Drop)]
pub enum LineAnswer {
    /// What its desk answers, or that it has none.
    Asked(Answer),
    /// It isn't a line of a script.
    Usage,
}

/// A write or a flush failed.
#[derive(Clone, Copy)]
pub struct WriteFault;

/// Where answers go.
pub trait Print {
    /// What has gone out, if that is known. What is held back is not printed yet.
    ghost printed: { Self → Option (List ℕ) };

    /// Prints the bytes: they go out, and nothing is held back. If that fails, a beginning of them has.
    fn print(&mut self, bytes: &[u8]) -> Result<(), WriteFault>
        ensures sent { OnOk result (Appends (printed self.old) (printed self.new) bytes.now) }
        ensures part { OnErr result (AppendsPart (printed self.old) (printed self.new) bytes.now) };
}

/// A writer is flushed after each print. Its contract says what it was handed, and not what its flush passes on.
impl<W: Write> Print for W {
    ghost printed = { λ writer. W.contents writer };

    fn print(&mut self, bytes: &[u8]) -> Result<(), WriteFault> {
        send(self, bytes)?;
        flush(self)
    }
}

/// Writes the bytes, by one call if the writer takes them all. A call that takes none has failed.
fn send<W: Write>(writer: &mut W, bytes: &[u8]) -> Result<(), WriteFault>
    ensures sent { OnOk result (Appends (W.contents writer.old) (W.contents writer.new) bytes.now) }
    ensures part { OnErr result (AppendsPart (W.contents writer.old)
        (W.contents writer.new) bytes.now) }
{
    let mut sent = 0;
    for _ in 0..bytes.len() {
        if sent == bytes.len() {
            break;
        }
        match writer.write(&bytes[sent..]) {
            Ok(0) | Err(_) => return Err(WriteFault),
            Ok(count) => sent += count,
        }
    }
    Ok(())
}

/// Has the writer pass on what it holds back.
fn flush<W: Write>(writer: &mut W) -> Result<(), WriteFault>
    ensures { Keeps (W.contents writer.old) (W.contents writer.new) }
{
    match writer.flush() {
        Ok(()) => Ok(()),
        Err(_error) => Err(WriteFault),
    }
}

fn ok_line(serial: u32) -> ShortText
    ensures { result ≡ told_text (Accepted (record { serial = serial })) }
{
    let mut line = ShortText::new();
    line.push(b"ok ");
    line.push_number(u64::from(serial));
    line.push(b"\n");
    line
}

fn refusal_line(refusal: &Refusal) -> ShortText
    ensures { result ≡ told_text (Refused refusal.now) }
{
    let mut line = ShortText::new();
    line.push(b"refused ");
    line.push_number(u64::from(refusal.number()));
    line.push(b" ");
    line.push(refusal.name().as_bytes());
    line.push(b"\n");
    line
}

/// Prints what the desk has answered, by one write if the writer takes it whole. It takes no memory.
pub fn print_told<W: Print>(writer: &mut W, told: &Answer) -> Result<(), WriteFault>
    ensures sent { OnOk result (Appends (W.printed writer.old) (W.printed writer.new)
        (told_text told.now)) }
    ensures part { OnErr result (AppendsPart (W.printed writer.old) (W.printed writer.new)
        (told_text told.now)) }
{
    match told {
        Answer::Accepted(receipt) => writer.print(ok_line(receipt.serial).as_slice()),
        Answer::Text(text) | Answer::Slip(text) => writer.print(text.as_slice()),
        Answer::Refused(refusal) => writer.print(refusal_line(refusal).as_slice()),
    }
}

/// Prints the answer to a line of a script.
pub fn print_answer<W: Print>(writer: &mut W, answer: &LineAnswer) -> Result<(), WriteFault>
    ensures sent { OnOk result (Appends (W.printed writer.old) (W.printed writer.new)
        (answer_text answer.now)) }
    ensures part { OnErr result (AppendsPart (W.printed writer.old) (W.printed writer.new)
        (answer_text answer.now)) }
{
    match answer {
        LineAnswer::Asked(told) => print_told(writer, told),
        LineAnswer::Usage => writer.print(b"usage\n"),
    }
}
