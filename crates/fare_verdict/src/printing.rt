//! The text of findings.
ghost use Rattle.std.specs.Prelude.{◌≡◌, ◌++◌, OnOk};
ghost use Rattle.fare_verdict.specs.FindingsText.{finding_line, findings_text};

use crate::Finding;
use fare_law::Mem;
use itoa::Buffer;
use word_text::push_joined;

/// Adds a line for each finding: `breach R component c unit u category k`.
pub fn push_findings_text(text: &mut Vec<u8>, findings: &[Finding]) -> Result<(), Mem>
    ensures { OnOk result (text.new.items ≡ text.old.items ++ findings_text findings.now) }
{
    for finding in findings {
        push_line(text, *finding)?;
    }
    Ok(())
}

/// Adds the line of a finding.
fn push_line(text: &mut Vec<u8>, finding: Finding) -> Result<(), Mem>
    ensures { OnOk result (text.new.items ≡ text.old.items ++ finding_line finding) }
{
    let (mut rules, mut components) = (Buffer::new(), Buffer::new());
    let (mut units, mut categories) = (Buffer::new(), Buffer::new());
    let words: [&[u8]; 8] = [
        b"breach",
        rules.format(finding.rule).as_bytes(),
        b"component",
        components.format(finding.component).as_bytes(),
        b"unit",
        units.format(finding.unit).as_bytes(),
        b"category",
        categories.format(finding.category).as_bytes(),
    ];
    push_joined(text, b' ', &words)?;
    text.push(b'\n')?;
    Ok(())
}
