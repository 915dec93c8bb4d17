// The numbers of the questions and of the axes.
use std::io;
use words::{AxisId, Question};

const QUESTIONS: [(Question, &str); 17] = [
    (Question::Kind, "kind"),
    (Question::Directory, "directory"),
    (Question::Pairs, "pairs"),
    (Question::Axis, "axis"),
    (Question::Digits, "digits"),
    (Question::Range, "range"),
    (Question::Parameters, "parameters"),
    (Question::Mode, "mode"),
    (Question::Homed, "homed"),
    (Question::Held, "held"),
    (Question::AtRest, "at rest"),
    (Question::Shown, "shown"),
    (Question::Ticket, "ticket"),
    (Question::Control, "control"),
    (Question::Length, "length"),
    (Question::Moveset, "moveset"),
    (Question::Buffer, "buffer"),
];

const AXES: [(AxisId, &str); 3] = [
    (AxisId::One, "one"),
    (AxisId::Two, "two"),
    (AxisId::Three, "three"),
];

pub fn print_questions(rt: &impl Print) -> io::Result<()> {
    print_numbers(rt, "question", &QUESTIONS, Question::number)
}

pub fn print_axes(rt: &impl Print) -> io::Result<()> {
    print_numbers(rt, "axis", &AXES, AxisId::number)
}

fn print_numbers<T, F>(
    rt: &impl Print,
    subject: &str,
    named: &[(T, &str)],
    number: F,
) -> io::Result<()>
where
    T: Copy,
    F: Fn(T) -> u8,
    requires { F.IsAlwaysCallable number }
{
    for (thing, name) in named {
        let number = number(*thing);
        println!(rt; "{subject} {name} = {number}")?;
    }
    Ok(())
}
