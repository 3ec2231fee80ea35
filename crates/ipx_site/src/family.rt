//! Metric families in the Prometheus text format.

ghost use Rattle.std.specs.Prelude.{◌≡◌, ◌++◌, ◌∷◌, [], OnOk, codes, map, string_bytes};
ghost use Rattle.std.specs.Fmt.{decimal};
ghost use Rattle.std.specs.List.{flat_map};
ghost use Rattle.ipx_site.specs.MetricsText.{at_port, at_port_by, by_label, family_lines, family_text, sample_line, unlabelled};

use std::alloc::AllocError;

/// A metric family: its name, its help text and its type.
pub struct Family {
    pub name: &'static str,
    pub help: &'static str,
    pub kind: &'static str,
}

/// Writes the HELP and TYPE lines of a family.
pub fn put_family(text: &mut String, family: &Family) -> Result<(), AllocError>
    ensures { OnOk result (string_bytes text.new ≡ string_bytes text.old
        ++ family_text family.now.name.now family.now.help.now family.now.kind.now) }
{
    let name = family.name;
    let help = family.help;
    let kind = family.kind;
    write!(text, "# HELP {name} {help}.\n# TYPE {name} {kind}\n")
}

/// Writes a family of one metric.
pub fn put_one(text: &mut String, family: &Family, value: u64) -> Result<(), AllocError>
    ensures { OnOk result (string_bytes text.new ≡ string_bytes text.old
        ++ family_lines (record {
          name = family.now.name.now;
          help = family.now.help.now;
          kind = family.now.kind.now;
          samples = unlabelled value;
        })) }
{
    put_family(text, family)?;
    let name = family.name;
    write!(text, "{name} {value}\n")
}

/// Writes a metric of a family, with its value of the label.
fn put_labelled(
    text: &mut String,
    family: &Family,
    label: &str,
    word: &str,
    value: u64,
) -> Result<(), AllocError>
    ensures { OnOk result (string_bytes text.new ≡ string_bytes text.old
        ++ sample_line family.now.name.now ((label.now, word.now) ∷ [], value)) }
{
    let name = family.name;
    write!(text, "{name}{{{label}=\"{word}\"}} {value}\n")
}

/// Writes a family of several metrics, each with its value of the label.
pub fn put_each(
    text: &mut String,
    family: &Family,
    label: &str,
    metrics: &[(&'static str, u64)],
) -> Result<(), AllocError>
    ensures { OnOk result (string_bytes text.new ≡ string_bytes text.old
        ++ family_lines (record {
          name = family.now.name.now;
          help = family.now.help.now;
          kind = family.now.kind.now;
          samples = by_label label.now (map (λ m. (m.0.now, m.1)) metrics.now);
        })) }
{
    put_family(text, family)?;
    for (word, value) in metrics {
        put_labelled(text, family, label, word, *value)?;
    }
    Ok(())
}

/// Writes a metric of the port with this number.
pub fn put_of_port(
    text: &mut String,
    family: &Family,
    number: usize,
    value: u64,
) -> Result<(), AllocError>
    ensures { OnOk result (string_bytes text.new ≡ string_bytes text.old
        ++ sample_line family.now.name.now (at_port number value)) }
{
    let name = family.name;
    write!(text, "{name}{{port=\"{number}\"}} {value}\n")
}

/// Writes a metric of the port with this number, with its value of one more label.
fn put_of_port_by(
    text: &mut String,
    family: &Family,
    number: usize,
    label: &str,
    word: &str,
    value: u64,
) -> Result<(), AllocError>
    ensures { OnOk result (string_bytes text.new ≡ string_bytes text.old
        ++ sample_line family.now.name.now
        ((codes "port", decimal number) ∷ (label.now, word.now) ∷ [], value)) }
{
    let name = family.name;
    write!(
        text,
        "{name}{{port=\"{number}\",{label}=\"{word}\"}} {value}\n"
    )
}

/// Writes several metrics of the port with this number, each with its value of one more label.
pub fn put_each_of_port(
    text: &mut String,
    family: &Family,
    number: usize,
    label: &str,
    metrics: &[(&'static str, u64)],
) -> Result<(), AllocError>
    ensures { OnOk result (string_bytes text.new ≡ string_bytes text.old
        ++ flat_map (sample_line family.now.name.now)
        (at_port_by number label.now (map (λ m. (m.0.now, m.1)) metrics.now))) }
{
    for (word, value) in metrics {
        put_of_port_by(text, family, number, label, word, *value)?;
    }
    Ok(())
}
