//! A program over the system's own words and streams.

/// Runs a program over the system's command line and streams, and returns the exit code for `main`. `$rt` is the
/// runtime that `main` is given, and `$program` the program. Input and output are buffered, up to 64 KiB each.
///
/// It is a macro since no clause can state what reaches the system: the body is proved in each `main`.
#[macro_export]
macro_rules! launch_on_system {
    ($rt:ident, $program:ident) => {{
        let alloc = $rt.alloc();
        let mut errors = $crate::Counted::new($rt.stderr());
        let input = std::io::BufReader::with_capacity(alloc, 65_536, $rt.reader());
        let output = std::io::BufWriter::with_capacity(alloc, 65_536, std::io::writer(&$rt));
        let exit = match (input, output) {
            (Ok(input), Ok(output)) => {
                let mut reader = $crate::Counted::new(input);
                let mut writer = $crate::Counted::new(output);
                let words = std::env::args(&$rt);
                $crate::launch::<$program, _, _, _>(
                    alloc,
                    words,
                    &mut reader,
                    &mut writer,
                    &mut errors,
                )
            }
            _ => $crate::stop_without_memory(&mut errors),
        };
        std::process::ExitCode::from(exit.code)
    }};
}
