// Records that are wanted beside those that were written.

// The first line in which they differ: none where one side has no more lines.
#[derive(Clone, Copy)]
pub struct Difference<'t> {
    pub wanted: Option<&'t str>,
    pub written: Option<&'t str>,
}

// Where the lines first differ.
pub fn first_difference<'t>(wanted: &'t str, written: &'t str) -> Option<Difference<'t>> {
    let mut lines = written.lines();
    for line in wanted.lines() {
        let found = lines.next();
        if found != Some(line) {
            return Some(Difference {
                wanted: Some(line),
                written: found,
            });
        }
    }
    let more = lines.next()?;
    Some(Difference {
        wanted: None,
        written: Some(more),
    })
}
