//! The context of a drawing: its inputs, and the names of its elements.

use crate::analysis::scene::Scene;
use crate::analysis::traffic::{Shown, Traffic, empty_lists, list_at};
use crate::text::dot_text::DotText;
use crate::text::excerpt::{MAX_EXCERPT, excerpt, item_starts};
use crate::text::style::DIM;
use explain_text::line_index::LineIndex;
use std::alloc::{AllocError, Allocator, Global};

/// Maximum number of bytes of a script's text in a box. The whole text is shown when the pointer rests on the box.
const WIDTH: usize = 54;

/// Maximum number of lines that a remark lists.
const FEW_LINES: usize = 12;

/// The inputs of a drawing: a scene, its traffic, and the lines of its text.
#[derive(Drop)]
pub struct DrawingContext<'p, 'a, A: Allocator> {
    pub alloc: Global,
    pub scene: &'p Scene<'a, A>,
    pub traffic: &'p Traffic,
    lines: LineIndex<'a>,
    /// The offsets at which the items of the script begin.
    pub starts: Vec<usize>,
    /// The variables of each block that have boxes of their own.
    own_boxes: Vec<Vec<usize>>,
    /// The variable of each statement whose readers its box lists.
    listed: Vec<Option<usize>>,
}

impl<'p, 'a, A: Allocator> DrawingContext<'p, 'a, A> {
    /// Creates the context of a scene.
    ///
    /// # Errors
    ///
    /// Returns `AllocError` if an allocation fails.
    pub fn new(
        alloc: Global,
        source: &'a [u8],
        scene: &'p Scene<'a, A>,
        traffic: &'p Traffic,
    ) -> Result<DrawingContext<'p, 'a, A>, AllocError> {
        let lines = LineIndex::of(alloc, source)?;
        let starts = item_starts(alloc, source)?;
        let own_boxes = own_boxes(alloc, scene, traffic)?;
        let listed = listed(alloc, scene, traffic)?;
        Ok(DrawingContext {
            alloc,
            scene,
            traffic,
            lines,
            starts,
            own_boxes,
            listed,
        })
    }

    /// Returns the variables of a block that have boxes of their own.
    pub fn own_boxes(&self, block: usize) -> &[usize] {
        list_at(&self.own_boxes, block)
    }

    /// Returns the line of an offset.
    pub fn line(&self, at: usize) -> usize {
        let length = self.lines.text().len();
        self.lines.position(at.min(length)).line
    }

    /// Returns the text of the statement or header that begins at an offset.
    ///
    /// # Errors
    ///
    /// Returns `AllocError` if an allocation fails.
    pub fn excerpt(&self, at: usize) -> Result<Vec<u8>, AllocError> {
        excerpt(self.alloc, self.lines.text(), at)
    }

    /// Appends the name of a statement's box.
    pub fn add_statement(&self, text: &mut DotText, statement: usize) {
        text.add_counted("s", self.offset(statement));
    }

    /// Appends the name of a function's box.
    pub fn add_function(&self, text: &mut DotText, function: usize) {
        match self.scene.functions.get(function) {
            Some(called) => text.add_counted("f", called.at),
            None => {}
        }
    }

    /// Returns the offset of a statement.
    fn offset(&self, statement: usize) -> usize {
        match self.scene.boxes.get(statement) {
            Some(found) => found.at,
            None => 0,
        }
    }

    /// Appends the name of a variable, with brackets for an array.
    pub fn add_variable(&self, text: &mut DotText, variable: usize) {
        if let Some(info) = self.scene.variables.get(variable) {
            text.add_escaped(info.name);
            if info.is_array {
                text.add("[]");
            }
        }
    }

    /// Appends the tip and the label of a box: its line, the first bytes of its words, and a stripe of a colour. A box
    /// of no statement is that of a function, with bold words.
    pub fn add_label(
        &self,
        text: &mut DotText,
        colour: &str,
        line: usize,
        words: &[u8],
        statement: Option<usize>,
    ) {
        text.add_counted("tooltip=\"line ", line);
        text.add(": ");
        add_shortened(text, words, MAX_EXCERPT);
        text.add(
            "\", label=<<TABLE BORDER=\"0\" CELLBORDER=\"0\" CELLSPACING=\"0\" CELLPADDING=\"4\"><TR>",
        );
        add_stripe(text, colour);
        text.add("<TD ALIGN=\"RIGHT\"><FONT POINT-SIZE=\"10\" COLOR=\"");
        text.add(DIM);
        text.add_counted("\">", line);
        text.add("</FONT></TD><TD ALIGN=\"LEFT\">");
        match statement {
            Some(statement) => {
                add_shortened(text, words, WIDTH);
                text.add("</TD></TR>");
                self.add_remark(text, colour, statement);
            }
            None => {
                text.add("<B>");
                add_shortened(text, words, WIDTH);
                text.add("</B></TD></TR>");
            }
        }
        text.add("</TABLE>>];\n");
    }

    /// Appends the row of a label that lists the readers of a statement's variable, if there is one to list.
    fn add_remark(&self, text: &mut DotText, colour: &str, statement: usize) {
        let Some(variable) = self.listed.get(statement).copied().flatten() else {
            return;
        };
        text.add("<TR>");
        add_stripe(text, colour);
        text.add("<TD> </TD><TD ALIGN=\"LEFT\"><FONT POINT-SIZE=\"9\" COLOR=\"");
        text.add(DIM);
        text.add("\">read at");
        self.add_lines(text, self.traffic.readers(variable));
        text.add("</FONT></TD></TR>");
    }

    /// Appends the lines of some statements, each once.
    fn add_lines(&self, text: &mut DotText, statements: &[usize]) {
        let end = self.line_of_last(statements);
        let mut last = 0;
        let mut count = 0;
        for statement in statements {
            let line = self.line(self.offset(*statement));
            if line != last && count < FEW_LINES {
                add_line(text, count, line, end);
                last = line;
                count = count.saturating_add(1);
            }
        }
        if last != end {
            text.add(", ..");
        }
    }

    /// Returns the line of the last of some statements, or 0 if there is none.
    fn line_of_last(&self, statements: &[usize]) -> usize {
        match statements.last() {
            Some(statement) => self.line(self.offset(*statement)),
            None => 0,
        }
    }
}

/// Appends a line of a list, of which `count` lines are appended already and `end` is the last.
fn add_line(text: &mut DotText, count: usize, line: usize, end: usize) {
    if count > 0 {
        text.add_counted(", ", line);
    } else if line == end {
        text.add_counted(" line ", line);
    } else {
        text.add_counted(" lines ", line);
    }
}

/// Appends the cell of a stripe.
fn add_stripe(text: &mut DotText, colour: &str) {
    text.add("<TD WIDTH=\"5\" BGCOLOR=\"");
    text.add(colour);
    text.add("\"> </TD>");
}

/// Appends words, or their first bytes and three dots if they are longer than `most`.
fn add_shortened(text: &mut DotText, words: &[u8], most: usize) {
    if words.len() <= most {
        text.add_escaped(words);
    } else {
        text.add_escaped(&words[..most.saturating_sub(1)]);
        text.add("&#8230;");
    }
}

/// Returns the variables of each block that have boxes of their own.
fn own_boxes<'a, A: Allocator>(
    alloc: Global,
    scene: &Scene<'a, A>,
    traffic: &Traffic,
) -> Result<Vec<Vec<usize>>, AllocError> {
    let mut lists = empty_lists(alloc, scene.blocks.len())?;
    for variable in 0..scene.variables.len() {
        if traffic.shown(variable) == Shown::OwnBox {
            if let Some(list) = lists.get_mut(scene.variables[variable].block) {
                list.push(variable)?;
            }
        }
    }
    Ok(lists)
}

/// Returns the variable of each statement whose readers its box lists.
fn listed<'a, A: Allocator>(
    alloc: Global,
    scene: &Scene<'a, A>,
    traffic: &Traffic,
) -> Result<Vec<Option<usize>>, AllocError> {
    let mut listed = Vec::new(alloc);
    for _ in &scene.boxes {
        listed.push(None)?;
    }
    for variable in 0..scene.variables.len() {
        if traffic.shown(variable) == Shown::Lines {
            for writer in traffic.writers(variable) {
                if let Some(place) = listed.get_mut(*writer) {
                    *place = Some(variable);
                }
            }
        }
    }
    Ok(listed)
}
