// The lines of a report.
ghost use Rattle.std.specs.Prelude.{◌≡◌, cond, ◌+◌, ◌≤◌, length};
ghost use Rattle.text.specs.Ascii.{ascii};
ghost use Rattle.text.specs.Writing.{◌then◌};
ghost use Rattle.text.specs.Texts.{written};
ghost use Rattle.responses.specs.Report.{verdict, unread_line};
ghost use Rattle.responses.specs.Sizes.{room_size};

use text::Text;

// A case's number, and what is said of it.
#[tactic(auto, using(crate::proofs::Room::pieces), unfolding(crate::specs::Report::verdict))]
fn verdict(text: &mut Text<'_>, number: u64, word: &[u8])
    requires { (length (written text.old).text + room_size ≤ (written text.old).size) × (length word.now ≤ 13) }
    ensures wrote { written text.new ≡ written text.old then verdict number word.now }
    ensures few { length (written text.new).text ≤ length (written text.old).text + room_size }
{
    text.decimal(number);
    text.copy(word);
}

#[tactic(auto, unfolding(text::specs::Ascii::ascii))]
pub fn passed(text: &mut Text<'_>, number: u64, good: bool)
    requires { length (written text.old).text + room_size ≤ (written text.old).size }
    ensures wrote { written text.new ≡ written text.old then verdict number (cond good (ascii " pass\n") (ascii " fail\n")) }
    ensures few { length (written text.new).text ≤ length (written text.old).text + room_size }
{
    let word = if good { b" pass\n" } else { b" fail\n" };
    verdict(text, number, word);
}

#[tactic(auto, unfolding(text::specs::Ascii::ascii))]
pub fn passed_over(text: &mut Text<'_>, number: u64)
    requires { length (written text.old).text + room_size ≤ (written text.old).size }
    ensures wrote { written text.new ≡ written text.old then verdict number (ascii " passed over\n") }
    ensures few { length (written text.new).text ≤ length (written text.old).text + room_size }
{
    verdict(text, number, b" passed over\n");
}

#[tactic(auto, using(crate::proofs::Room::pieces), unfolding(crate::specs::Report::unread_line, text::specs::Ascii::ascii))]
pub fn unread(text: &mut Text<'_>, n: u64)
    requires { length (written text.old).text + room_size ≤ (written text.old).size }
    ensures wrote { written text.new ≡ written text.old then unread_line n }
    ensures few { length (written text.new).text ≤ length (written text.old).text + room_size }
{
    text.copy(b"line ");
    text.decimal(n);
    text.put(b'\n');
}
