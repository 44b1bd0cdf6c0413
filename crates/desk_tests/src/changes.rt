//! Changes of a dossier of the clinic's liar, one a row, and what each is answered. `dossiers`
//! makes them and checks what comes of it.
use std::process::Abort;

/// Changes of the dossier that `dossiers` has worked out: the number of the line that is replaced,
/// the kind and the line of the refusal, or 0 and the number of items, and what stands in its
/// place. There `~` is a line feed, and `!` takes the line out. They were found from the table of
/// refusals, with the probes' clauses and the clinic's sixteen worlds, by a program of its own.
pub const CHANGES: &str = "\
1 1 1 dossier 2 eve lying open\n\
1 1 1 dossier 1 kim lying open\n\
1 1 1 dossier 1 eve refusal open\n\
1 1 1 dossier 1 eve combined open\n\
1 1 1 dossier 1 eve lying opened\n\
1 1 1 dossier 1 eve lying\n\
1 1 1 dossier 1 eve  lying open\n\
1 1 1  dossier 1 eve lying open\n\
1 1 1 dossier 1 eve lying open \n\
1 1 1 dossier\t1 eve lying open\n\
1 1 1 Dossier 1 eve lying open\n\
1 1 1 dossier 01 eve lying open\n\
1 1 1 dossier 1 Eve lying open\n\
1 1 1 dossier 1 eve lie open\n\
1 1 1 dossier\n\
1 1 1 user eve lying open\n\
1 1 1 dossier 1 eve lying open open\n\
1 1 1 dossier 1 eve lying Open\n\
1 1 1 admission\n\
1 6 1 dossier 1 eve lying closed\n\
1 6 1 dossier 1 eve lying sealed\n\
2 1 2 admission \n\
2 1 2 Admission\n\
2 1 2 admissions\n\
2 1 2 admission -\n\
2 1 2 open -\n\
2 1 2 \n\
2 1 2 admission\t\n\
2 1 2 \tadmission\n\
2 1 2  admission\n\
2 1 2 admitted\n\
3 3 3 open hiv(ann)\n\
3 0 1 open hiv(bob)\n\
3 3 3 open drug(ann)\n\
3 3 3 open drug(bob)\n\
3 3 3 open hiv(ann) hiv(bob)\n\
3 3 3 open hiv(ann) drug(ann)\n\
3 3 3 open hiv(ann) drug(bob)\n\
3 3 3 open hiv(bob) drug(ann)\n\
3 0 1 open hiv(bob) drug(bob)\n\
3 3 3 open drug(ann) drug(bob)\n\
3 3 3 open hiv(ann) hiv(bob) drug(ann)\n\
3 3 3 open hiv(ann) hiv(bob) drug(bob)\n\
3 3 3 open hiv(ann) drug(ann) drug(bob)\n\
3 3 3 open hiv(bob) drug(ann) drug(bob)\n\
3 3 3 open hiv(ann) hiv(bob) drug(ann) drug(bob)\n\
3 1 3 open\n\
3 1 3 open \n\
3 1 3 open  -\n\
3 1 3 open - -\n\
3 1 3 open hiv(bob) hiv(bob)\n\
3 1 3 open drug(bob) hiv(bob)\n\
3 1 3 open hiv( bob)\n\
3 1 3 open hiv(bob) \n\
3 1 3 open  hiv(bob)\n\
3 1 3 open hiv(bob),drug(bob)\n\
3 1 3 open hiv(carl)\n\
3 1 3 open pox(bob)\n\
3 1 3 open hiv(bob\n\
3 1 3 open hiv bob\n\
3 1 3 open (hiv(bob))\n\
3 1 3 open HIV(bob)\n\
3 1 3 open hiv(bob)drug(bob)\n\
3 1 3 open true\n\
3 1 3 open spent\n\
3 1 3 opens -\n\
8 3 8 open hiv(ann)\n\
8 0 1 open hiv(bob)\n\
8 3 8 open drug(ann)\n\
8 3 8 open drug(bob)\n\
8 3 8 open hiv(ann) hiv(bob)\n\
8 3 8 open hiv(ann) drug(ann)\n\
8 3 8 open hiv(ann) drug(bob)\n\
8 3 8 open hiv(bob) drug(ann)\n\
8 0 1 open hiv(bob) drug(bob)\n\
8 3 8 open drug(ann) drug(bob)\n\
8 3 8 open hiv(ann) hiv(bob) drug(ann)\n\
8 3 8 open hiv(ann) hiv(bob) drug(bob)\n\
8 3 8 open hiv(ann) drug(ann) drug(bob)\n\
8 3 8 open hiv(bob) drug(ann) drug(bob)\n\
8 3 8 open hiv(ann) hiv(bob) drug(ann) drug(bob)\n\
8 1 8 open\n\
8 1 8 open \n\
8 1 8 open  -\n\
8 1 8 open - -\n\
8 1 8 open hiv(bob) hiv(bob)\n\
8 1 8 open drug(bob) hiv(bob)\n\
8 1 8 open hiv( bob)\n\
8 1 8 open hiv(bob) \n\
8 1 8 open  hiv(bob)\n\
8 1 8 open hiv(bob),drug(bob)\n\
8 1 8 open hiv(carl)\n\
8 1 8 open pox(bob)\n\
8 1 8 open hiv(bob\n\
8 1 8 open hiv bob\n\
8 1 8 open (hiv(bob))\n\
8 1 8 open HIV(bob)\n\
8 1 8 open hiv(bob)drug(bob)\n\
8 1 8 open true\n\
8 1 8 open spent\n\
8 1 8 opens -\n\
3 6 3 follows\n\
3 1 3 follows \n\
3 1 3 !\n\
4 4 4 ask yes drug(ann)\n\
4 4 4 ask refused drug(ann)\n\
4 1 5 ask undecided drug(ann)\n\
4 1 4 ask\n\
4 1 4 ask \n\
4 1 4 ask no\n\
4 1 4 ask no \n\
4 1 4 ask protected drug(ann)\n\
4 1 4 ask maybe drug(ann)\n\
4 1 4 ask  no drug(ann)\n\
4 1 4 ask No drug(ann)\n\
4 1 4 Ask no drug(ann)\n\
4 1 4 ask\tno drug(ann)\n\
4 1 4 ask noo drug(ann)\n\
4 1 4 protect\n\
4 1 4 protect \n\
4 1 4 no drug(ann)\n\
4 1 4 1 no drug(ann)\n\
4 1 4 ask drug(ann)\n\
4 2 4 ask no drug(carl)\n\
4 2 4 ask no drug(\n\
4 2 4 ask no  \n\
4 2 4 ask no drug\n\
4 2 4 ask yes hiv(ann) hiv(bob)\n\
4 2 4 ask no forall x: person .\n\
4 2 4 ask no x = y\n\
4 2 4 protect  \n\
4 2 4 protect drug(\n\
4 2 4 protect pox(ann)\n\
4 3 7 ask no drug(bob)\n\
4 3 7 ask no hiv(bob)\n\
4 3 7 ask no true\n\
4 3 7 ask no drug(ann) and true\n\
4 0 1 ask no  drug(ann)\n\
4 0 1 ask no drug(ann) \n\
4 0 1 ask no ( drug ( ann ) )\n\
4 0 1 ask no not not drug(ann)\n\
4 0 1 ask no drug(ann)\t\n\
4 7 5 protect drug(bob)\n\
4 7 5 protect hiv(ann)\n\
5 1 5 follow\n\
5 1 5 follows \n\
5 1 5 Follows\n\
5 1 5 end\n\
5 1 5 line : 12 3 11 7 10\n\
5 1 5 ask no drug(ann)\n\
5 1 5 done 0\n\
5 1 5 \n\
5 1 5 opens -\n\
5 1 5 !\n\
5 3 5 open -\n\
5 3 5 open hiv(bob)\n\
5 3 5 open hiv(ann) drug(ann)\n\
5 3 5 open drug(ann)\n\
6 3 7 line : 12 3 11 10 7\n\
6 0 1 line : 12 3 7 11 10\n\
6 0 1 line : 12 3 7 10 11\n\
6 3 7 line : 12 3 10 11 7\n\
6 3 7 line : 12 3 10 7 11\n\
6 3 7 line : 12 11 3 7 10\n\
6 3 7 line : 12 11 3 10 7\n\
6 3 7 line : 12 11 7 3 10\n\
6 3 7 line : 12 11 7 10 3\n\
6 3 7 line : 12 11 10 3 7\n\
6 3 7 line : 12 11 10 7 3\n\
6 3 7 line : 12 7 3 11 10\n\
6 3 7 line : 12 7 3 10 11\n\
6 3 7 line : 12 7 11 3 10\n\
6 3 7 line : 12 7 11 10 3\n\
6 3 7 line : 12 7 10 3 11\n\
6 3 7 line : 12 7 10 11 3\n\
6 3 7 line : 12 10 3 11 7\n\
6 3 7 line : 12 10 3 7 11\n\
6 3 7 line : 12 10 11 3 7\n\
6 3 7 line : 12 10 11 7 3\n\
6 3 7 line : 12 10 7 3 11\n\
6 3 7 line : 12 10 7 11 3\n\
6 3 7 line : 12\n\
6 3 7 line : 12 3\n\
6 3 7 line : 12 3 7 10\n\
6 0 1 line : 11 3 12 7 10\n\
6 0 1 line : 10 7 3 12 11\n\
6 0 1 line : 10 7 3 11 12\n\
6 3 7 line : 0\n\
6 3 7 line : 13\n\
6 3 7 line : 12 3 11 7 10 0\n\
6 3 7 line : 12 3 11 7\n\
6 3 7 line : 99999\n\
6 0 1 line +1 : 11~line : 12 3 13 7 10\n\
6 0 1 line -3 -1 : 12 3~line : 13 11 7 10\n\
6 0 1 line -1 -3 : 12 3~line : 13 11 7 10\n\
6 0 1 line -3 -1 -1 : 12 3~line : 13 11 7 10\n\
6 3 8 line -3 : 12 3~line : 13 7 10\n\
6 3 7 line +1 : 11\n\
6 0 1 line +0 : 0~line : 12 3 11 7 10\n\
6 3 6 !\n\
6 1 6 line\n\
6 1 6 line \n\
6 1 6 line :\n\
6 1 6 line 12 3 11 7 10\n\
6 1 6 line : 12  3\n\
6 1 6 line  : 12\n\
6 1 6 line : 012\n\
6 1 6 line : +12\n\
6 1 6 line : -1\n\
6 1 6 line : 12 \n\
6 1 6 line 1 : 12\n\
6 1 6 line + : 12\n\
6 1 6 line +01 : 12\n\
6 1 6 line +1 -: 12\n\
6 1 6 line :12\n\
6 1 6 line : x\n\
6 1 6 line : 2147483647\n\
6 1 6 line +2147483647 : 1\n\
6 1 6 lines : 12\n\
6 1 6 Line : 12\n\
6 1 6 line : : 12\n\
6 1 6 open -\n\
7 1 7 End\n\
7 1 7 end \n\
7 1 7 ends\n\
7 1 7 done 1\n\
7 1 7 \n\
7 1 7 open -\n\
7 1 7 !\n\
8 1 9 follows\n\
8 1 8 !\n\
9 1 9 done 0\n\
9 1 9 done 2\n\
9 1 9 done 01\n\
9 1 9 done\n\
9 1 9 done \n\
9 1 9 done 1 \n\
9 1 9 done  1\n\
9 1 9 Done 1\n\
9 1 9 done -1\n\
9 1 9 done one\n\
9 1 9 \n\
9 1 9 !\n\
9 1 10 done 1~\n\
9 1 10 done 1~done 1\n\
9 1 10 done 1~ \n\
9 1 10 done 1~ask no drug(ann)\n\
";

/// A change: the number of the line, from 1 on, what is answered, and the text in its place.
pub type Change<'a> = (usize, (u32, u32), &'a str);

/// The words of a row: three numbers and the text; none where it has fewer.
fn words_of(row: &str) -> Option<(&str, &str, &str, &str)> {
    let (at, rest) = row.split_once(" ")?;
    let (kind, rest) = rest.split_once(" ")?;
    let (line, text) = rest.split_once(" ")?;
    Some((at, kind, line, text))
}

/// The change that a row of `CHANGES` says.
pub fn change_of<'a>(rt: &impl Abort, row: &'a str) -> Change<'a> {
    let Some((at, kind, line, text)) = words_of(row) else {
        panic!(rt; "no row");
    };
    let at = at.parse::<usize>().expect(rt, "a line");
    let kind = kind.parse::<u32>().expect(rt, "a kind");
    let line = line.parse::<u32>().expect(rt, "a line");
    (at, (kind, line), text)
}
