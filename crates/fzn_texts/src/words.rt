//! What words give.
use fz_cmd::Options;
use fz_cmd::words::options;
use fz_script::Answer;
use std::alloc::{AllocError, Global};

/// The options of some words, or that they are refused.
pub fn read(alloc: Global, words: &[String]) -> Result<Answer, AllocError> {
    match options(alloc, words)? {
        Some(options) => Ok(Answer::of(0, shown(alloc, &options)?.into_bytes())),
        None => Ok(Answer::of(2, Vec::new(alloc))),
    }
}

/// The numbers and the file of options, and what is set of the others.
fn shown(alloc: Global, options: &Options) -> Result<String, AllocError> {
    let mut text = format!(in alloc;
        "workers={} commit={} adaptive={} file={}",
        options.workers(),
        options.commit_distance(),
        options.adaptive_distance(),
        options.file().as_str()
    )?;
    for (name, is_set) in [
        (" all", options.all()),
        (" distinct", options.distinct()),
        (" stats", options.stats()),
        (" certificate", options.certificate()),
    ] {
        text.push_str(if is_set { name } else { "" })?;
    }
    push_numbers(alloc, &mut text, options)?;
    text.push_str("\n")?;
    Ok(text)
}

fn push_numbers(alloc: Global, text: &mut String, options: &Options) -> Result<(), AllocError> {
    if 1 < options.assets() {
        text.push_str(&format!(in alloc; " assets={}", options.assets())?)?;
    }
    if let Some(limit) = options.limit() {
        text.push_str(&format!(in alloc; " limit={limit}")?)?;
    }
    if let Some(seed) = options.interleave() {
        text.push_str(&format!(in alloc; " interleave={seed}")?)?;
    }
    if let Some(items) = options.generate() {
        text.push_str(&format!(in alloc; " generate={items}")?)?;
    }
    if let Some(parts) = options.split() {
        text.push_str(&format!(in alloc; " split={parts}")?)?;
    }
    if let Some(part) = options.part() {
        text.push_str(&format!(in alloc; " part={}", part.as_str())?)?;
    }
    if let Some(value) = options.better() {
        text.push_str(&format!(in alloc; " better={value}")?)?;
    }
    Ok(())
}
